// Where an entry lies, and the parts that are read out of an image or an entry.
ghost use Rattle.std.specs.Prelude.{◌≡◌, ◌+◌, ◌*◌, ◌^◌, ◌<◌, ◌≤◌, length};
ghost use Rattle.sector.specs.Layout.{sector_size, entries_per_page, entry_address, entry_at, map_of, size_of};

use crate::{ENTRY_SIZE, ITEMS_OFFSET, MAP_OFFSET, bytes};

// An entry's first byte; of index 126 the page's end.
pub fn entry_address(index: usize) -> usize
    requires { index ≤ entries_per_page }
    ensures { result ≡ entry_address index }
{
    ITEMS_OFFSET + ENTRY_SIZE * index
}

// The 32 bytes of an entry, as they lie.
pub fn entry_at(image: &[u8], index: usize) -> [u8; 32]
    requires { (length image.now ≡ sector_size) × (index < entries_per_page) }
    ensures { result ≡ entry_at image.now index }
{
    let start = entry_address(index);
    let end = start + ENTRY_SIZE;
    bytes::array_of(&image[start..end])
}

// The map's 32 bytes.
pub fn map_of(image: &[u8]) -> [u8; 32]
    requires { length image.now ≡ sector_size }
    ensures { result ≡ map_of image.now }
{
    bytes::array_of(&image[MAP_OFFSET..ITEMS_OFFSET])
}

// The payload's size, as an item's header entry has it.
pub fn size_of(entry: [u8; 32]) -> usize
    ensures { (result ≡ size_of entry) × (result < 2 ^ 16) }
{
    u16::from_le_bytes([entry[24], entry[25]]) as usize
}
