// The hash by which a page's list finds an item (raw.rs `Item`).
#![tactic(auto)]

ghost use Rattle.std.specs.Prelude.{◌≡◌};
ghost use Rattle.sector.specs.Item.{hash_of, hash_of_item};
ghost use Rattle.sector.specs.Layout.{key_of};

use sector::{CRC_START, bytes};

// The hash by which a page's list finds an item (`Item::calculate_hash_ref`): the low 24 bits of the CRC of
// namespace, key and chunk.
#[tactic(auto, unfolding(sector::specs::Item::hash_of))]
pub fn calculate_hash(namespace: u8, key: [u8; 16], chunk: u8) -> u32
    ensures { result ≡ hash_of namespace key chunk }
{
    let mut hashed = [0u8; 18];
    hashed[0] = namespace;
    hashed[1..17].copy_from_slice(&key);
    hashed[17] = chunk;
    crc::crc32(CRC_START, &hashed) % 0x1000000
}

// The 16 bytes of an entry's key.
pub fn key_of(entry: [u8; 32]) -> [u8; 16]
    ensures { result ≡ key_of entry }
{
    bytes::array_of(&entry[8..24])
}

// The hash of the item whose header is an entry (`Item::calculate_hash`).
pub fn hash_of_item(entry: [u8; 32]) -> u32
    ensures { result ≡ hash_of_item entry }
{
    let key = key_of(entry);
    calculate_hash(entry[0], key, entry[3])
}
