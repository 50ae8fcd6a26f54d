// What a page holds, read out of its image without programming it (01, 'Opening'): what its header says, state before version
// before CRC; and its kept items, one after the other.
#![tactic(auto)]

ghost use Rattle.std.specs.Prelude.{◌≡◌, length};
ghost use Rattle.sector.specs.Layout.{sector_size};
ghost use Rattle.opening_found.specs.Found.{header_verdict_of, next_kept};

use opening_reading::{Verdict, Walk};
use sector::{VERSION, bytes, states};

// What opening makes of a header that no rule refuses: an erased page, or a page that opens.
#[derive(Clone, Copy)]
pub enum Header {
    Blank,
    Opens,
}

// The first rule that refused a header.
#[derive(Clone, Copy)]
pub enum HeaderError {
    WrongPageState,
    WrongVersion,
    WrongHeaderCrc,
}

// A kept item: the index of its header entry, and how many entries it spans.
#[derive(Clone, Copy)]
pub struct KeptItem {
    pub index: usize,
    pub span: usize,
}

// An erased page, a page that opens, or the first rule that refused its header.
#[tactic(auto, unfolding(crate::specs::Found::header_verdict_of))]
pub fn header_verdict(image: &[u8]) -> Result<Header, HeaderError>
    requires { length image.now ≡ sector_size }
    ensures { result ≡ header_verdict_of image.now }
{
    let state = sector_header::state_of_word(bytes::number_at(image, 0));
    if states::is_uninitialized(state) && flash::all_ones(image) {
        return Ok(Header::Blank);
    }
    if !states::is_in_use(state) {
        return Err(HeaderError::WrongPageState);
    }
    if image[8] != VERSION {
        return Err(HeaderError::WrongVersion);
    }
    if sector_header::crc_of(image) != bytes::number_at(image, 28) {
        return Err(HeaderError::WrongHeaderCrc);
    }
    Ok(Header::Opens)
}

// The first item that the reading keeps where the walk begins at an entry. An entry past the last has none after it.
//
// Begin at 0, and go on at index + span of each item found. An entry within an item is no place to begin: its bytes can look
// like a header.
pub fn next_kept(image: &[u8], map: [u8; 32], from: usize) -> Option<KeptItem>
    requires { length image.now ≡ sector_size }
    ensures { result ≡ next_kept image.now map from }
{
    for (index, verdict) in Walk::new(image, map, from) {
        if let Verdict::Kept(covered) = verdict {
            return Some(KeptItem {
                index,
                span: covered + 1,
            });
        }
    }
    None
}
