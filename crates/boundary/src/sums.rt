// C functions over bytes and numbers alone: CRCs, the hash, the type byte.
ghost use Rattle.std.specs.Prelude.{◌≡◌};
ghost use Rattle.crc.specs.Crc.{crc32};
ghost use Rattle.sector.specs.Types.{type_byte};
ghost use Rattle.boundary.specs.Boundary.{item_crc_given, header_crc_given, hash_given};

use crate::{ANSWER_SIZE, BAD_CALL, KEY_SIZE};
use sector::{ENTRY_SIZE, bytes};

// The CRC of the data from a start value.
pub fn nvs_crc32(start: u32, bytes: &[u8]) -> u32
    ensures { result ≡ crc32 start bytes.now }
{
    crc::crc32(start, bytes)
}

// The CRC over bytes 0..4 and 8..32 of an item as it stands (`item_crc`).
pub fn nvs_item_crc(bytes: &[u8], buffer: &mut [u8]) -> u32
    ensures number { result ≡ (item_crc_given bytes.now buffer.old).number }
    ensures buffer { buffer.new ≡ (item_crc_given bytes.now buffer.old).buffer }
{
    if buffer.len() != ANSWER_SIZE {
        return BAD_CALL;
    }
    if bytes.len() != ENTRY_SIZE {
        return BAD_CALL;
    }
    let crc = sector_item::item_crc(bytes::array_of(bytes));
    boundary_results::give_number(buffer, Ok(crc as u64))
}

// The CRC over bytes 4..28 of a page's header as it stands (`header_crc`).
pub fn nvs_header_crc(bytes: &[u8], buffer: &mut [u8]) -> u32
    ensures number { result ≡ (header_crc_given bytes.now buffer.old).number }
    ensures buffer { buffer.new ≡ (header_crc_given bytes.now buffer.old).buffer }
{
    if buffer.len() != ANSWER_SIZE {
        return BAD_CALL;
    }
    if bytes.len() != ENTRY_SIZE {
        return BAD_CALL;
    }
    let crc = sector_header::header_crc(bytes::array_of(bytes));
    boundary_results::give_number(buffer, Ok(crc as u64))
}

// The 24-bit hash of namespace, key and chunk (`calculate_hash`).
pub fn nvs_hash(namespace: u8, key: &[u8], chunk: u8, buffer: &mut [u8]) -> u32
    ensures number { result ≡ (hash_given namespace key.now chunk buffer.old).number }
    ensures buffer { buffer.new ≡ (hash_given namespace key.now chunk buffer.old).buffer }
{
    if buffer.len() != ANSWER_SIZE {
        return BAD_CALL;
    }
    if key.len() != KEY_SIZE {
        return BAD_CALL;
    }
    let hash = sector_hash::calculate_hash(namespace, bytes::array_of(key), chunk);
    boundary_results::give_number(buffer, Ok(hash as u64))
}

// The byte, or 0xFF where it is none of the thirteen types.
pub fn nvs_type_byte(byte: u8) -> u8
    ensures { result ≡ type_byte byte }
{
    sector_types::type_byte(byte)
}
