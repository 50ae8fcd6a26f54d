// The record of a page (page.rs, ThinPage), whether it is fit to use, and what it tells of the page's entries.
#![tactic(auto)]

ghost use Rattle.std.specs.Prelude.{◌≡◌};
ghost use Rattle.page.specs.Record.{no_item, next_free, free, uninitialized};

mod fit;

use sector::{ENTRIES_PER_PAGE, PageState};

// An item outside namespace 0: its hash and its entry's index.
#[derive(Clone, Copy, PartialEq, Eq)]
pub struct Listed {
    pub hash: u32,
    pub index: u8,
}

// What is known of a page without reading it. The list has 126 places, of which len are in use.
#[derive(Clone, Copy)]
pub struct ThinPage {
    pub state: PageState,
    pub sequence: u32,
    pub version: u8,
    pub crc: u32,
    pub map: [u8; 32],
    pub used: u8,
    pub erased: u8,
    pub len: u8,
    pub list: [Listed; 126],
}

impl Listed {
    // A place that is not in use.
    pub fn none() -> Listed
        ensures { result ≡ no_item }
    {
        Listed { hash: 0, index: 0 }
    }
}

impl ThinPage {
    // The record of a page whose bytes are all 0xFF.
    pub fn uninitialized() -> ThinPage
        ensures { result ≡ uninitialized }
    {
        ThinPage {
            state: PageState::Uninitialized,
            sequence: 0,
            version: 0,
            crc: 0,
            map: [0xFF; 32],
            used: 0,
            erased: 0,
            len: 0,
            list: [Listed::none(); 126],
        }
    }

    // The first entry after those that are used or erased.
    pub fn get_next_free_entry(&self) -> usize
        ensures { result ≡ next_free self.now }
    {
        self.used as usize + self.erased as usize
    }

    // How many entries are free.
    pub fn get_free_entry_count(&self) -> usize
        ensures { result ≡ free self.now }
    {
        ENTRIES_PER_PAGE.saturating_sub(self.get_next_free_entry())
    }
}
