// Whether a record is fit to use: a function for each clause, in the order of document 01.
ghost use Rattle.std.specs.Prelude.{◌≡◌, ◌≤◌};
ghost use Rattle.page.specs.Record.{place_fits, place_zero, listed_fit, behind_zero, is_blank, blank_fits, fit_to_use};

use crate::{Listed, ThinPage};
use sector::ENTRIES_PER_PAGE;

impl Listed {
    // The place names an entry, and its hash has 24 bits.
    fn fits(&self) -> bool
        ensures { result ≡ place_fits self.now }
    {
        self.index < 126 && self.hash < 0x1000000
    }

    fn is_zero(&self) -> bool
        ensures { result ≡ place_zero self.now }
    {
        self.index == 0 && self.hash == 0
    }
}

impl ThinPage {
    // Each place in use fits.
    fn listed_fit(&self) -> bool
        requires { self.now.len ≤ 126 }
        ensures { result ≡ listed_fit self.now }
    {
        self.list[..self.len as usize]
            .iter()
            .all(|place| place.fits())
    }

    // Each place after those is zero.
    fn behind_zero(&self) -> bool
        requires { self.now.len ≤ 126 }
        ensures { result ≡ behind_zero self.now }
    {
        self.list
            .iter()
            .skip(self.len as usize)
            .all(|place| place.is_zero())
    }

    // Counts, sequence, version and header CRC are 0, the list is empty, the map is all 0xFF.
    fn is_blank(&self) -> bool
        ensures { result ≡ is_blank self.now }
    {
        self.used == 0
            && self.erased == 0
            && self.sequence == 0
            && self.version == 0
            && self.crc == 0
            && self.len == 0
            && flash::all_ones(&self.map)
    }

    // An Uninitialized record is blank.
    fn blank_fits(&self) -> bool
        ensures { result ≡ blank_fits self.now }
    {
        !sector::states::is_uninitialized(self.state) || self.is_blank()
    }

    // Whether a record is fit to use: each writing call refuses one that is not (BadRecord), and leaves one that is.
    //
    // The Rust has no such check: its records are private, and the functions that make them are trusted.
    pub fn fit_to_use(&self) -> bool
        ensures { result ≡ fit_to_use self.now }
    {
        let next_free = self.get_next_free_entry();
        next_free <= ENTRIES_PER_PAGE
            && self.len as usize <= next_free
            && sector_map::get_entry_statistics(self.map).written <= self.used as u32
            && self.listed_fit()
            && self.behind_zero()
            && self.blank_fits()
    }
}
