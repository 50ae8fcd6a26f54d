// C functions that take a record of 675 bytes or program an image: opening and the writing calls.
//
// The record goes in and comes back in the same buffer, and stays as it was on any refusal and on Stopped.
ghost use Rattle.std.specs.Prelude.{◌≡◌};
ghost use Rattle.sector.specs.Answers.{number_of};
ghost use Rattle.call_purge.specs.Purge.{purge, purge_image};
ghost use Rattle.boundary.specs.Boundary.{open_left, open_stopped_left, initialise_left, mark_full_left, single_left, namespace_left, variable_left, copy_left, erase_left, purge_namespace_left, single_of, variable_of};

use crate::{BAD_CALL, KEY_SIZE, RECORD_SIZE, SINGLE_SIZE};
use call_append::{Single, Variable};
use sector::{answers, bytes};

// Opens a page (`open_page`); the record is only written, and on a refusal it is the Uninitialized one.
pub fn nvs_open(image: &mut [u8], buffer: &mut [u8]) -> u32
    ensures number { result ≡ (open_left image.old buffer.old).number }
    ensures image { image.new ≡ (open_left image.old buffer.old).image }
    ensures buffer { buffer.new ≡ (open_left image.old buffer.old).buffer }
{
    if buffer.len() != RECORD_SIZE {
        return BAD_CALL;
    }
    let opened = opening::open_page(image);
    boundary_results::hand_opened(buffer, opened)
}

// Opens a page (`open_stopped`), stopped after `stop` units where it has more; the record is the Uninitialized one then.
pub fn nvs_open_stopped(image: &mut [u8], buffer: &mut [u8], stop: u64) -> u32
    ensures number { result ≡ (open_stopped_left image.old buffer.old stop).number }
    ensures image { image.new ≡ (open_stopped_left image.old buffer.old stop).image }
    ensures buffer { buffer.new ≡ (open_stopped_left image.old buffer.old stop).buffer }
{
    if buffer.len() != RECORD_SIZE {
        return BAD_CALL;
    }
    let opened = opening::open_stopped(image, stop as usize);
    boundary_results::hand_opened(buffer, opened)
}

// Writes the header of a new page (`initialize`), stopped after `stop` units where it has more.
pub fn nvs_initialise(image: &mut [u8], buffer: &mut [u8], sequence: u32, stop: u64) -> u32
    ensures number { result ≡ (initialise_left image.old buffer.old sequence stop).number }
    ensures image { image.new ≡ (initialise_left image.old buffer.old sequence stop).image }
    ensures buffer { buffer.new ≡ (initialise_left image.old buffer.old sequence stop).buffer }
{
    if buffer.len() != RECORD_SIZE {
        return BAD_CALL;
    }
    let mut page = boundary_encoding::record_of(buffer);
    let answer = call_page_state::initialize(image, &mut page, sequence, stop as usize);
    boundary_results::hand_back(buffer, answer, &page)
}

// Writes the state word Full (`mark_as_full`).
pub fn nvs_mark_full(image: &mut [u8], buffer: &mut [u8]) -> u32
    ensures number { result ≡ (mark_full_left image.old buffer.old).number }
    ensures image { image.new ≡ (mark_full_left image.old buffer.old).image }
    ensures buffer { buffer.new ≡ (mark_full_left image.old buffer.old).buffer }
{
    if buffer.len() != RECORD_SIZE {
        return BAD_CALL;
    }
    let mut page = boundary_encoding::record_of(buffer);
    let answer = call_page_state::mark_as_full(image, &mut page);
    boundary_results::hand_back(buffer, answer, &page)
}

// Appends a single entry (`write_item`), stopped after `stop` units where it has more.
pub fn nvs_append_single(
    image: &mut [u8],
    buffer: &mut [u8],
    namespace: u8,
    kind: u8,
    span: u64,
    chunk: u8,
    key: &[u8],
    bytes: &[u8],
    stop: u64,
) -> u32
    ensures number { result ≡ (single_left image.old buffer.old (single_of namespace kind span chunk key.now bytes.now) stop).number }
    ensures image { image.new ≡ (single_left image.old buffer.old (single_of namespace kind span chunk key.now bytes.now) stop).image }
    ensures buffer { buffer.new ≡ (single_left image.old buffer.old (single_of namespace kind span chunk key.now bytes.now) stop).buffer }
{
    if buffer.len() != RECORD_SIZE {
        return BAD_CALL;
    }
    if key.len() != KEY_SIZE {
        return BAD_CALL;
    }
    if bytes.len() != SINGLE_SIZE {
        return BAD_CALL;
    }
    let item = Single {
        namespace,
        kind,
        span: span as usize,
        chunk,
        key: bytes::array_of(key),
        bytes: bytes::array_of(bytes),
    };
    let mut page = boundary_encoding::record_of(buffer);
    let answer = call_append::write_item(image, &mut page, item, stop as usize);
    boundary_results::hand_back(buffer, answer, &page)
}

// Appends a namespace entry (`write_namespace`), stopped after `stop` units where it has more.
pub fn nvs_append_namespace(
    image: &mut [u8],
    buffer: &mut [u8],
    key: &[u8],
    value: u8,
    stop: u64,
) -> u32
    ensures number { result ≡ (namespace_left image.old buffer.old key.now value stop).number }
    ensures image { image.new ≡ (namespace_left image.old buffer.old key.now value stop).image }
    ensures buffer { buffer.new ≡ (namespace_left image.old buffer.old key.now value stop).buffer }
{
    if buffer.len() != RECORD_SIZE {
        return BAD_CALL;
    }
    if key.len() != KEY_SIZE {
        return BAD_CALL;
    }
    let name = bytes::array_of(key);
    let mut page = boundary_encoding::record_of(buffer);
    let answer = call_append::write_namespace(image, &mut page, name, value, stop as usize);
    boundary_results::hand_back(buffer, answer, &page)
}

// Appends data (`write_variable_sized_item`), stopped after `stop` units where it has more.
pub fn nvs_append_variable(
    image: &mut [u8],
    buffer: &mut [u8],
    namespace: u8,
    kind: u8,
    chunk: u8,
    key: &[u8],
    payload: &[u8],
    stop: u64,
) -> u32
    ensures number { result ≡ (variable_left image.old buffer.old (variable_of namespace kind chunk key.now) payload.now stop).number }
    ensures image { image.new ≡ (variable_left image.old buffer.old (variable_of namespace kind chunk key.now) payload.now stop).image }
    ensures buffer { buffer.new ≡ (variable_left image.old buffer.old (variable_of namespace kind chunk key.now) payload.now stop).buffer }
{
    if buffer.len() != RECORD_SIZE {
        return BAD_CALL;
    }
    if key.len() != KEY_SIZE {
        return BAD_CALL;
    }
    let item = Variable {
        namespace,
        kind,
        chunk,
        key: bytes::array_of(key),
    };
    let mut page = boundary_encoding::record_of(buffer);
    let answer = call_append_variable::write_variable_sized_item(
        image,
        &mut page,
        item,
        payload,
        stop as usize,
    );
    boundary_results::hand_back(buffer, answer, &page)
}

// Copies an item from another sector (`copy_item_from`), stopped after `stop` units where it has more.
pub fn nvs_copy_in(image: &mut [u8], buffer: &mut [u8], source: &[u8], index: u64, stop: u64) -> u32
    ensures number { result ≡ (copy_left image.old buffer.old source.now index stop).number }
    ensures image { image.new ≡ (copy_left image.old buffer.old source.now index stop).image }
    ensures buffer { buffer.new ≡ (copy_left image.old buffer.old source.now index stop).buffer }
{
    if buffer.len() != RECORD_SIZE {
        return BAD_CALL;
    }
    let mut page = boundary_encoding::record_of(buffer);
    let answer = call_copy::copy_item_from(image, &mut page, source, index as usize, stop as usize);
    boundary_results::hand_back(buffer, answer, &page)
}

// Marks the entries of an item Erased (`erase_item`).
pub fn nvs_erase(image: &mut [u8], buffer: &mut [u8], index: u64, span: u64) -> u32
    ensures number { result ≡ (erase_left image.old buffer.old index span).number }
    ensures image { image.new ≡ (erase_left image.old buffer.old index span).image }
    ensures buffer { buffer.new ≡ (erase_left image.old buffer.old index span).buffer }
{
    if buffer.len() != RECORD_SIZE {
        return BAD_CALL;
    }
    let mut page = boundary_encoding::record_of(buffer);
    let answer = call_erase::erase_item(image, &mut page, index as usize, span as usize);
    boundary_results::hand_back(buffer, answer, &page)
}

// Zeroes entries from an index on (`purge_entries`).
pub fn nvs_purge(image: &mut [u8], index: u64, span: u64) -> u32
    ensures number { result ≡ number_of (purge image.old) }
    ensures image { image.new ≡ purge_image image.old index span }
{
    let answer = call_purge::purge_entries(image, index as usize, span as usize);
    answers::number_of(answer) as u32
}

// Zeroes the Erased items of a namespace (`purge_erased_for_namespace`).
pub fn nvs_purge_namespace(image: &mut [u8], buffer: &mut [u8], namespace: u8) -> u32
    ensures number { result ≡ (purge_namespace_left image.old buffer.old namespace).number }
    ensures image { image.new ≡ (purge_namespace_left image.old buffer.old namespace).image }
    ensures buffer { buffer.new ≡ (purge_namespace_left image.old buffer.old namespace).buffer }
{
    if buffer.len() != RECORD_SIZE {
        return BAD_CALL;
    }
    let page = boundary_encoding::record_of(buffer);
    let answer = call_purge_namespace::purge_erased_for_namespace(image, &page, namespace);
    boundary_results::hand_back(buffer, answer, &page)
}
