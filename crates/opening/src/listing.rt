// The list of kept items outside namespace 0, as opening makes it: place by place, in rising index.
use page::Listed;
use std::marker::Model;

// 126 places, of which the first `len` are in use, and the others zero.
#[derive(Drop)]
pub(crate) struct Listing {
    pub(crate) len: u8,
    pub(crate) list: [Listed; 126],
}

// Clauses see the places in use.
impl Model for Listing {
    ghost use Rattle.std.specs.Prelude.{◌≡◌, ◌≤◌, List, take};
    ghost use Rattle.page.specs.declared.Listed.{Listed};
    ghost use Rattle.page.specs.Record.{padded};

    ghost Value = { List Listed };

    ghost view = { λ listing. take listing.len listing.list };

    ghost invariant = { λ listing. (listing.len ≤ 126) × (listing.list ≡ padded (take listing.len listing.list)) };
}

impl Listing {
    ghost use Rattle.std.specs.Prelude.{◌≡◌, [], ◌∷◌, ◌++◌, ◌<◌, length};

    // No place in use.
    pub(crate) fn empty() -> Listing
        ensures { result ≡ [] }
    {
        Listing {
            len: 0,
            list: [Listed::none(); 126],
        }
    }

    // One place more.
    pub(crate) fn push(&mut self, place: Listed)
        requires { length self.old < 126 }
        ensures { self.new ≡ self.old ++ place ∷ [] }
    {
        self.list[self.len as usize] = place;
        self.len += 1;
    }
}
