// Purging by index (page.rs): `purge_entries`.
#![tactic(auto)]

ghost use Rattle.std.specs.Prelude.{◌≡◌, ◌+◌, ◌*◌, ◌<◌, ◌≤◌, length, replicate};
ghost use Rattle.flash.specs.Flash.{units, run};
ghost use Rattle.sector.specs.Layout.{sector_size, entries_per_page, entry_size, entry_address};
ghost use Rattle.call_purge.specs.Purge.{purge, purge_image};

use sector::{ENTRIES_PER_PAGE, Refusal, SECTOR_SIZE, layout};

// A unit is four bytes: an entry has eight.
const UNITS: usize = 8;

// Programs an entry's bytes to zero.
#[tactic(auto, unfolding(flash::specs::Flash::units))]
pub fn zero_entry(image: &mut [u8], index: usize)
    requires { (length image.old ≡ sector_size) × (index < entries_per_page) }
    ensures { image.new ≡ run (units (entry_address index) (replicate entry_size 0)) image.old }
{
    let zeros = [0u8; 32];
    flash::write_aligned(image, layout::entry_address(index), &zeros, UNITS);
}

// Programs these entries to zero. One at a time: a buffer of zeros for all of them would be as large as the page.
fn zero_entries(image: &mut [u8], index: usize, span: usize)
    requires { (length image.old ≡ sector_size) × (index + span ≤ entries_per_page) }
    ensures { image.new ≡ run (units (entry_address index) (replicate (entry_size * span) 0)) image.old }
{
    for i in index..index + span {
        zero_entry(image, i);
    }
}

// Zeroes entries from an index on (`ThinPage::purge_entries`), at least one and none past the page; an index over 125 does
// nothing. The map stays as it is, so no record is taken.
//
// Refuses only an image that is not 4,096 bytes (BadImage), of which the Rust knows nothing.
pub fn purge_entries(image: &mut [u8], index: usize, span: usize) -> Result<(), Refusal>
    ensures answer { result ≡ purge image.old }
    ensures image { image.new ≡ purge_image image.old index span }
{
    if image.len() != SECTOR_SIZE {
        return Err(Refusal::BadImage);
    }
    if index >= ENTRIES_PER_PAGE {
        return Ok(());
    }
    let held = span.clamp(1, ENTRIES_PER_PAGE - index);
    zero_entries(image, index, held);
    Ok(())
}
