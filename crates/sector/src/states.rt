// Which states a page is in, as the calls ask.
ghost use Rattle.std.specs.Prelude.{◌≡◌};
ghost use Rattle.sector.specs.Header.{is_uninitialized, is_active, is_in_use};

use crate::PageState;

pub fn is_uninitialized(state: PageState) -> bool
    ensures { result ≡ is_uninitialized state }
{
    state == PageState::Uninitialized
}

pub fn is_active(state: PageState) -> bool
    ensures { result ≡ is_active state }
{
    state == PageState::Active
}

// Active, Full or Freeing: such a page opens, and erase takes it.
pub fn is_in_use(state: PageState) -> bool
    ensures { result ≡ is_in_use state }
{
    matches!(
        state,
        PageState::Active | PageState::Full | PageState::Freeing
    )
}
