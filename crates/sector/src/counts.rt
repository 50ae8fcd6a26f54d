// The counts of a map's parts, put together.
ghost use Rattle.std.specs.Prelude.{◌≡◌};
ghost use Rattle.sector.specs.Map.{CountsFit, counts_sum};

use crate::Statistics;
use std::ops::Add;

impl Add for Statistics {
    type Output = Statistics;

    ghost can_add = { CountsFit };

    ghost add_gives = { λ a b sum. sum ≡ counts_sum a b };

    fn add(self, other: Statistics) -> Statistics {
        Statistics {
            empty: self.empty + other.empty,
            written: self.written + other.written,
            erased: self.erased + other.erased,
            illegal: self.illegal + other.illegal,
        }
    }
}
