// Reading items out of a sector (page.rs): load and raw read. The data after an item's header is read by `call_load_data`.
#![tactic(auto)]

ghost use Rattle.std.specs.Prelude.{◌≡◌, ◌+◌, ◌*◌, ◌<◌, length};
ghost use Rattle.sector.specs.Layout.{sector_size, entries_per_page, entry_at};
ghost use Rattle.sector.specs.Item.{loads};
ghost use Rattle.sector.specs.Answers.{refusal, value_where_done};
ghost use Rattle.call_load.specs.Load.{entry_checks, raw_entry, load_item};

use sector::{ENTRIES_PER_PAGE, ENTRY_SIZE, ITEMS_OFFSET, Refusal, SECTOR_SIZE, layout};

// The first of raw read's checks that refuses.
fn entry_refusal(image: &[u8], index: usize) -> Result<(), Refusal>
    ensures { result ≡ refusal (entry_checks image.now index) }
{
    if image.len() != SECTOR_SIZE {
        return Err(Refusal::BadImage);
    }
    if index >= ENTRIES_PER_PAGE {
        return Err(Refusal::CorruptedData);
    }
    Ok(())
}

// The 32 bytes of an entry as they lie (`ThinPage::read_raw_entry`).
//
// Refuses an image that is not 4,096 bytes (BadImage), then an index over 125 (CorruptedData). The Rust
// checks neither: past the last entry it reads the next sector.
pub fn read_raw_entry(image: &[u8], index: usize) -> Result<[u8; 32], Refusal>
    ensures { result ≡ value_where_done (raw_entry image.now index).answer (raw_entry image.now index).item }
{
    entry_refusal(image, index)?;
    Ok(layout::entry_at(image, index))
}

// Whether an entry loads, of which the bytes are already read.
//
// It does what `sector_item::loads` does, and looks for bytes other than 0xFF in the image itself: in a copy of the
// entry that costs a sixth of a load.
fn loads_at(image: &[u8], index: usize, item: [u8; 32]) -> bool
    requires { (length image.now ≡ sector_size) × (index < entries_per_page) × (item ≡ entry_at image.now index) }
    ensures { result ≡ loads (entry_at image.now index) }
{
    let start = ITEMS_OFFSET + ENTRY_SIZE * index;
    let end = start + ENTRY_SIZE;
    if flash::all_ones(&image[start..end]) {
        return false;
    }
    sector_types::is_known(item[1]) && sector_item::crc_right(item)
}

// The item whose header is an entry (`ThinPage::load_item`). The map is not consulted, so an erased item still
// loads.
//
// Refuses an image that is not 4,096 bytes (BadImage), an index over 125 (CorruptedData), then an entry
// that is all 0xFF, of an unknown type, or whose CRC is wrong (KeyNotFound). The Rust checks neither image nor
// index, and takes an unknown type byte as 0xFF.
pub fn load_item(image: &[u8], index: usize) -> Result<[u8; 32], Refusal>
    ensures { result ≡ value_where_done (load_item image.now index).answer (load_item image.now index).item }
{
    entry_refusal(image, index)?;
    let item = layout::entry_at(image, index);
    if !loads_at(image, index, item) {
        return Err(Refusal::KeyNotFound);
    }
    Ok(item)
}
