// The page header (raw.rs `PageHeader`): its state word, its CRC, and the bytes of a new one.
#![tactic(auto)]

ghost use Rattle.std.specs.Prelude.{◌≡◌, ◌≤◌, length};
ghost use Rattle.sector.specs.Header.{header_crc, state_of_word, header_bytes};
ghost use Rattle.sector.specs.Layout.{entry_size};

use sector::{
    CRC_START, PAGE_STATE_ACTIVE, PAGE_STATE_FREEING, PAGE_STATE_FULL, PAGE_STATE_INVALID,
    PAGE_STATE_UNINITIALIZED, PageState, VERSION, bytes,
};

// The CRC over bytes 4..28 of the header that these bytes begin with: neither the state word, which changes
// as the page fills, nor the CRC's own place.
#[tactic(auto, unfolding(sector::specs::Header::header_crc))]
pub fn crc_of(bytes: &[u8]) -> u32
    requires { entry_size ≤ length bytes.now }
    ensures { result ≡ header_crc bytes.now }
{
    crc::crc32(CRC_START, &bytes[4..28])
}

// The CRC that a header should carry (`PageHeader::calculate_crc32`).
pub fn header_crc(header: [u8; 32]) -> u32
    ensures { result ≡ header_crc header }
{
    crc_of(&header)
}

// The page state that a header's word stands for (`PageState::from`): any other word is Corrupt.
//
// A function and no `impl From<u32>`: the type is crate `sector`'s, so the impl would stand there, and this would only call it.
#[tactic(auto, unfolding(sector::specs::Header::state_of_word))]
pub fn state_of_word(word: u32) -> PageState
    ensures { result ≡ state_of_word word }
{
    match word {
        PAGE_STATE_UNINITIALIZED => PageState::Uninitialized,
        PAGE_STATE_ACTIVE => PageState::Active,
        PAGE_STATE_FULL => PageState::Full,
        PAGE_STATE_FREEING => PageState::Freeing,
        PAGE_STATE_INVALID => PageState::Invalid,
        _ => PageState::Corrupt,
    }
}

// The 32 bytes of a new header (those that `ThinPage::initialize` writes): state Active, the sequence, version
// 0xFE, 19 bytes 0xFF, and the CRC.
pub fn header_bytes(sequence: u32) -> [u8; 32]
    ensures { result ≡ header_bytes sequence }
{
    let mut header = [0xFFu8; 32];
    header[..4].copy_from_slice(&bytes::little_endian(PAGE_STATE_ACTIVE));
    header[4..8].copy_from_slice(&bytes::little_endian(sequence));
    header[8] = VERSION;
    let crc = header_crc(header);
    header[28..].copy_from_slice(&bytes::little_endian(crc));
    header
}
