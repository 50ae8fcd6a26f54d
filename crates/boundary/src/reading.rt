// C functions with an answer of 57 bytes: width, load, raw read, load data, and the calls over a map.
ghost use Rattle.std.specs.Prelude.{◌≡◌};
ghost use Rattle.boundary.specs.Boundary.{width_given, load_given, raw_given, data_given, data_left, state_given, statistics_given, bound_given};

use crate::{ANSWER_SIZE, BAD_CALL, ENTRIES_SIZE, MAP_SIZE, NO_ITEM};
use sector::bytes;

// A primitive's width (`get_primitive_bytes_width`).
pub fn nvs_width(byte: u8, buffer: &mut [u8]) -> u32
    ensures number { result ≡ (width_given byte buffer.old).number }
    ensures buffer { buffer.new ≡ (width_given byte buffer.old).buffer }
{
    if buffer.len() != ANSWER_SIZE {
        return BAD_CALL;
    }
    let width = sector_types::get_primitive_bytes_width(byte);
    boundary_results::give_number(buffer, width.map(|width| width as u64))
}

// An item by its index (`load_item`).
pub fn nvs_load(image: &[u8], index: u64, buffer: &mut [u8]) -> u32
    ensures number { result ≡ (load_given image.now index buffer.old).number }
    ensures buffer { buffer.new ≡ (load_given image.now index buffer.old).buffer }
{
    if buffer.len() != ANSWER_SIZE {
        return BAD_CALL;
    }
    let loaded = call_load::load_item(image, index as usize);
    boundary_results::give_item(buffer, loaded)
}

// An entry's bytes as they lie (`read_raw_entry`).
pub fn nvs_raw_read(image: &[u8], index: u64, buffer: &mut [u8]) -> u32
    ensures number { result ≡ (raw_given image.now index buffer.old).number }
    ensures buffer { buffer.new ≡ (raw_given image.now index buffer.old).buffer }
{
    if buffer.len() != ANSWER_SIZE {
        return BAD_CALL;
    }
    let loaded = call_load::read_raw_entry(image, index as usize);
    boundary_results::give_item(buffer, loaded)
}

// The data after an item's header (`load_referenced_data_into`), and its size.
pub fn nvs_load_data(image: &[u8], index: u64, output: &mut [u8], buffer: &mut [u8]) -> u32
    ensures number { result ≡ (data_given image.now index output.old buffer.old).number }
    ensures output { output.new ≡ data_left image.now index output.old buffer.old }
    ensures buffer { buffer.new ≡ (data_given image.now index output.old buffer.old).buffer }
{
    if buffer.len() != ANSWER_SIZE {
        return BAD_CALL;
    }
    let size = call_load_data::load_referenced_data_into(image, index as usize, output);
    boundary_results::give_number(buffer, size.map(|size| size as u64))
}

// The two bits that a map holds for an entry (`get_entry_state`).
pub fn nvs_entry_state(bytes: &[u8], index: u64, buffer: &mut [u8]) -> u32
    ensures number { result ≡ (state_given bytes.now index buffer.old).number }
    ensures buffer { buffer.new ≡ (state_given bytes.now index buffer.old).buffer }
{
    if buffer.len() != ANSWER_SIZE {
        return BAD_CALL;
    }
    if bytes.len() != MAP_SIZE {
        return BAD_CALL;
    }
    let state = sector_map::get_entry_state(bytes::array_of(bytes), index as usize);
    boundary_results::give_number(buffer, state.map(|state| sector_map::bits_of(state) as u64))
}

// How many entries are in each state (`get_entry_statistics`).
pub fn nvs_statistics(bytes: &[u8], buffer: &mut [u8]) -> u32
    ensures number { result ≡ (statistics_given bytes.now buffer.old).number }
    ensures buffer { buffer.new ≡ (statistics_given bytes.now buffer.old).buffer }
{
    if buffer.len() != ANSWER_SIZE {
        return BAD_CALL;
    }
    if bytes.len() != MAP_SIZE {
        return BAD_CALL;
    }
    let counts = sector_map::get_entry_statistics(bytes::array_of(bytes));
    boundary_encoding::put_answer(buffer, 0, 0, NO_ITEM, counts);
    0
}

// A bound on the items outside namespace 0 (`hashed_item_bound`), by the map and the 126 entries.
pub fn nvs_hash_bound(bytes: &[u8], entries: &[u8], buffer: &mut [u8]) -> u32
    ensures number { result ≡ (bound_given bytes.now entries.now buffer.old).number }
    ensures buffer { buffer.new ≡ (bound_given bytes.now entries.now buffer.old).buffer }
{
    if buffer.len() != ANSWER_SIZE {
        return BAD_CALL;
    }
    if bytes.len() != MAP_SIZE {
        return BAD_CALL;
    }
    if entries.len() != ENTRIES_SIZE {
        return BAD_CALL;
    }
    let count = call_hash_bound::hashed_item_bound(
        bytes::array_of(bytes),
        boundary_encoding::entries_of(entries),
    );
    boundary_results::give_number(buffer, Ok(count as u64))
}
