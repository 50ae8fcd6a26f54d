// The buffers of the C boundary: a record as 675 bytes, an answer as 57.
#![tactic(auto)]

ghost use Rattle.std.specs.Prelude.{◌≡◌, cond, ◌++◌, ◌+◌, ◌≤◌, length, take, drop};
ghost use Rattle.sector.specs.Layout.{entries_per_page, chunks};
ghost use Rattle.boundary_encoding.specs.Encoding.{state_byte, state_of_byte, is_state, place_bytes, places_bytes, place_of, places_of, record_size, list_offset, head_bytes, record_bytes, record_of, answer_size, statistics_bytes, answer_bytes};

use page::{Listed, ThinPage};
use sector::{ENTRY_SIZE, PageState, Statistics, bytes};

// ---- where the parts of a record lie

const STATE_OFFSET: usize = 0;

const SEQUENCE_OFFSET: usize = 1;

const VERSION_OFFSET: usize = 5;

const CRC_OFFSET: usize = 6;

const MAP_OFFSET: usize = 10;

const USED_OFFSET: usize = 42;

const ERASED_OFFSET: usize = 43;

const LENGTH_OFFSET: usize = 44;

const LIST_OFFSET: usize = 45;

// A hash and an index.
const PLACE_SIZE: usize = 5;

// ---- where the parts of an answer lie

const NUMBER_OFFSET: usize = 1;

const ITEM_OFFSET: usize = 9;

const EMPTY_OFFSET: usize = 41;

const WRITTEN_OFFSET: usize = 45;

const ERASED_COUNT_OFFSET: usize = 49;

const ILLEGAL_OFFSET: usize = 53;

// ---- states

fn state_byte(state: PageState) -> u8
    ensures { result ≡ state_byte state }
{
    match state {
        PageState::Uninitialized => 0,
        PageState::Active => 1,
        PageState::Full => 2,
        PageState::Freeing => 3,
        PageState::Corrupt => 4,
        PageState::Invalid => 5,
    }
}

fn state_of_byte(byte: u8) -> PageState
    ensures { result ≡ state_of_byte byte }
{
    match byte {
        0 => PageState::Uninitialized,
        1 => PageState::Active,
        2 => PageState::Full,
        3 => PageState::Freeing,
        4 => PageState::Corrupt,
        5 => PageState::Invalid,
        _ => PageState::Corrupt,
    }
}

// The used entries; 255, more than a page has, where the state byte is none.
fn used_of(state: u8, used: u8) -> u8
    ensures { result ≡ cond (is_state state) used 255 }
{
    if state <= 5 { used } else { 255 }
}

// ---- entries

// The 126 entries that lie one after the other.
pub fn entries_of(bytes: &[u8]) -> [[u8; 32]; 126]
    requires { length bytes.now ≡ 4032 }
    ensures { result ≡ chunks entries_per_page bytes.now }
{
    let blank = [0u8; 32];
    let mut entries = [blank; 126];
    for k in 0..126usize {
        let start = ENTRY_SIZE * k;
        let end = start + ENTRY_SIZE;
        entries[k] = bytes::array_of(&bytes[start..end]);
    }
    entries
}

// ---- the record that bytes hold

fn place_at(bytes: &[u8], offset: usize) -> Listed
    requires { offset + 5 ≤ length bytes.now }
    ensures { result ≡ place_of (drop offset bytes.now) }
{
    Listed {
        hash: bytes::number_at(bytes, offset),
        index: bytes[offset + 4],
    }
}

fn places_of(bytes: &[u8]) -> [Listed; 126]
    requires { length bytes.now ≡ record_size }
    ensures { result ≡ places_of entries_per_page (drop list_offset bytes.now) }
{
    let none = Listed { hash: 0, index: 0 };
    let mut list = [none; 126];
    for k in 0..126usize {
        list[k] = place_at(bytes, LIST_OFFSET + PLACE_SIZE * k);
    }
    list
}

// The record that 675 bytes hold. One whose state byte is over 5 comes as a record that is not fit to use.
pub fn record_of(bytes: &[u8]) -> ThinPage
    requires { length bytes.now ≡ record_size }
    ensures { result ≡ record_of bytes.now }
{
    let state = state_of_byte(bytes[STATE_OFFSET]);
    let map = bytes::array_of(&bytes[MAP_OFFSET..USED_OFFSET]);
    let list = places_of(bytes);
    ThinPage {
        state,
        sequence: bytes::number_at(bytes, SEQUENCE_OFFSET),
        version: bytes[VERSION_OFFSET],
        crc: bytes::number_at(bytes, CRC_OFFSET),
        map,
        used: used_of(bytes[STATE_OFFSET], bytes[USED_OFFSET]),
        erased: bytes[ERASED_OFFSET],
        len: bytes[LENGTH_OFFSET],
        list,
    }
}

// ---- a record's bytes

fn head_bytes(page: &ThinPage) -> [u8; 10]
    ensures { result ≡ head_bytes page.now }
{
    let byte = state_byte(page.state);
    let sequence = bytes::little_endian(page.sequence);
    let crc = bytes::little_endian(page.crc);
    [
        byte,
        sequence[0],
        sequence[1],
        sequence[2],
        sequence[3],
        page.version,
        crc[0],
        crc[1],
        crc[2],
        crc[3],
    ]
}

fn place_bytes(place: Listed) -> [u8; 5]
    ensures { result ≡ place_bytes place }
{
    let hash = bytes::little_endian(place.hash);
    [hash[0], hash[1], hash[2], hash[3], place.index]
}

fn put_places(out: &mut [u8], list: [Listed; 126])
    requires { length out.old ≡ record_size }
    ensures { out.new ≡ take list_offset out.old ++ places_bytes list }
{
    for k in 0..126usize {
        let place = list[k];
        let five = place_bytes(place);
        bytes::put(out, LIST_OFFSET + PLACE_SIZE * k, &five);
    }
}

// Lays a record out in 675 bytes.
pub fn put_record(page: &ThinPage, out: &mut [u8])
    requires { length out.old ≡ record_size }
    ensures { out.new ≡ record_bytes page.now }
{
    bytes::put(out, STATE_OFFSET, &head_bytes(page));
    bytes::put(out, MAP_OFFSET, &page.map);
    bytes::put(out, USED_OFFSET, &[page.used, page.erased, page.len]);
    put_places(out, page.list);
}

// ---- an answer's bytes

// Lays the four counts out.
fn put_counts(out: &mut [u8], counts: Statistics)
    requires { length out.old ≡ answer_size }
    ensures { out.new ≡ take 41 out.old ++ statistics_bytes counts }
{
    let empty = bytes::little_endian(counts.empty);
    bytes::put(out, EMPTY_OFFSET, &empty);
    let written = bytes::little_endian(counts.written);
    bytes::put(out, WRITTEN_OFFSET, &written);
    let erased = bytes::little_endian(counts.erased);
    bytes::put(out, ERASED_COUNT_OFFSET, &erased);
    let illegal = bytes::little_endian(counts.illegal);
    bytes::put(out, ILLEGAL_OFFSET, &illegal);
}

// Lays an answer out in 57 bytes.
pub fn put_answer(out: &mut [u8], byte: u8, value: u64, item: [u8; 32], counts: Statistics)
    requires { length out.old ≡ answer_size }
    ensures { out.new ≡ answer_bytes byte value item counts }
{
    let carried = [byte];
    bytes::put(out, 0, &carried);
    let eight = bytes::little_endian_8(value);
    bytes::put(out, NUMBER_OFFSET, &eight);
    bytes::put(out, ITEM_OFFSET, &item);
    put_counts(out, counts);
}
