// Items (raw.rs `Item`): the CRC of a header entry, whether it loads, and the bytes of a new one.
#![tactic(auto)]

ghost use Rattle.std.specs.Prelude.{◌≡◌};
ghost use Rattle.sector.specs.Item.{item_crc, crc_right, loads, item_bytes, sized_data};

use sector::{CRC_START, bytes};

// The CRC that an item should carry (`Item::calculate_crc32`): over bytes 0..4, key and data.
//
// The Rust hands on three parts one after the other; here they lie side by side, for one call.
pub fn item_crc(entry: [u8; 32]) -> u32
    ensures { result ≡ item_crc entry }
{
    let mut covered = [0u8; 28];
    covered[..4].copy_from_slice(&entry[..4]);
    covered[4..].copy_from_slice(&entry[8..]);
    crc::crc32(CRC_START, &covered)
}

// Whether the CRC that an entry stores is the one that it should carry.
pub fn crc_right(entry: [u8; 32]) -> bool
    ensures { result ≡ crc_right entry }
{
    item_crc(entry) == bytes::number_at(&entry, 4)
}

// Whether an entry loads (the checks of `ThinPage::load_item`): it is not all 0xFF, its type byte is one of the
// thirteen, and its CRC is right.
//
// The Rust takes any other type byte as 0xFF, so it loads an entry whose CRC was made over 0xFF in its place.
#[tactic(auto, unfolding(sector::specs::Item::loads))]
pub fn loads(entry: [u8; 32]) -> bool
    ensures { result ≡ loads entry }
{
    !flash::all_ones(&entry) && sector_types::is_known(entry[1]) && crc_right(entry)
}

// The 32 bytes of a new item (those that `ThinPage::write_item` writes): namespace, type, span, chunk, CRC, key
// and data. Its parts come one by one, as `item_bytes` of specs/ takes them: that clause stays.
pub fn item_bytes(
    namespace: u8,
    kind: u8,
    span: u8,
    chunk: u8,
    key: [u8; 16],
    bytes: [u8; 8],
) -> [u8; 32]
    ensures { result ≡ item_bytes namespace kind span chunk key bytes }
{
    let mut entry = [0u8; 32];
    entry[..4].copy_from_slice(&[namespace, kind, span, chunk]);
    entry[8..24].copy_from_slice(&key);
    entry[24..].copy_from_slice(&bytes);
    let crc = item_crc(entry);
    entry[4..8].copy_from_slice(&bytes::little_endian(crc));
    entry
}

// The data of Sized, Blob and BlobData (`ItemDataSized::new`): the payload's size in two bytes, 0xFFFF, the
// payload's CRC. A size of more than two bytes loses the rest: no payload of a page has one.
#[tactic(auto, unfolding(sector::specs::Item::sized_data))]
pub fn sized_data(payload: &[u8]) -> [u8; 8]
    ensures { result ≡ sized_data payload.now }
{
    let size = (payload.len() % 0x10000) as u16;
    let crc = crc::crc32(CRC_START, payload);
    let mut data = [0xFFu8; 8];
    data[..2].copy_from_slice(&size.to_le_bytes());
    data[4..].copy_from_slice(&bytes::little_endian(crc));
    data
}
