// The page calls over numbers and byte slices, as C calls them. The crate `boundary_c` exports each under its name, for
// `boundary/nvs_page.h`.
//
// Each is total. BadCall, 255, is for a buffer of fixed size that has another length; it is checked before everything else,
// and changes nothing. What is left to the caller: each pointer is good for its length, and a buffer that is written overlaps
// no other.
#![tactic(auto)]

pub mod reading;
pub mod sums;
pub mod writing;

use sector::{ENTRIES_PER_PAGE, ENTRY_SIZE, ITEMS_OFFSET, MAP_OFFSET};

// A buffer of fixed size has another length.
pub const BAD_CALL: u32 = 255;

pub const RECORD_SIZE: usize = 675;

pub const ANSWER_SIZE: usize = 57;

pub const KEY_SIZE: usize = 16;

pub const SINGLE_SIZE: usize = 8;

// Of the map of states in a record, two bits an entry.
pub const MAP_SIZE: usize = ITEMS_OFFSET - MAP_OFFSET;

pub const ENTRIES_SIZE: usize = ENTRIES_PER_PAGE * ENTRY_SIZE;

// Of a call that has no item.
pub const NO_ITEM: [u8; 32] = [0; 32];
