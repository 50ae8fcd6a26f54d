// The verdict at an entry (01, 'Opening'): each rule in its order, and the reason where one refuses.
#![tactic(auto)]

ghost use Rattle.std.specs.Prelude.{◌≡◌, ◌+◌, ◌≤◌, ◌<◌, length, take, drop};
ghost use Rattle.sector.specs.Layout.{sector_size, entries_per_page, entry_at, entries_of, span_of};
ghost use Rattle.sector.specs.Map.{state_at, states_of};
ghost use Rattle.opening_reading.specs.Reading.{covered, header_refusal, payload_refusal, is_usable, usable, verdict_at, steps_over};

use sector::{CRC_START, ENTRIES_PER_PAGE, ENTRY_SIZE, EntryMapState, bytes, layout};

// The rule of the reading that refused an entry or an item.
#[derive(Clone, Copy)]
pub enum Reason {
    AllOnes,
    UnknownType,
    CrcWrong,
    SpanOffPage,
    WrongSpan,
    SizeTooBig,
    PayloadCrcWrong,
    CoveredNotUsable,
}

// What the reading makes of an entry: no item is looked for; the entry is refused; a payload item is refused, or an
// item is kept, with the entries that it covers after its header.
#[derive(Clone, Copy)]
pub enum Verdict {
    NotAnItem,
    RefusedEntry(Reason),
    RefusedItem(Reason, usize),
    Kept(usize),
}

// How many entries a walk steps over after the one that got the verdict.
pub fn steps_over(verdict: Verdict) -> usize
    ensures { result ≡ steps_over verdict }
{
    match verdict {
        Verdict::NotAnItem | Verdict::RefusedEntry(_) => 0,
        Verdict::RefusedItem(_, covered) | Verdict::Kept(covered) => covered,
    }
}

fn is_usable(state: EntryMapState) -> bool
    ensures { result ≡ is_usable state }
{
    matches!(state, EntryMapState::Empty | EntryMapState::Written)
}

// Whether none of `count` entries from an index on is Erased or Illegal.
fn all_usable(map: [u8; 32], first: usize, count: usize) -> bool
    requires { first + count ≤ entries_per_page }
    ensures { result ≡ usable count (drop first (states_of map)) }
{
    (first..first + count).all(|index| is_usable(sector_map::state_at(map, index)))
}

// The rule that refuses an entry as a header, where `left` entries lie after it on the page.
#[tactic(auto, unfolding(crate::specs::Reading::header_refusal, sector::specs::Types::kind_of))]
fn header_refusal(entry: [u8; 32], left: usize) -> Option<Reason>
    ensures { result ≡ header_refusal entry left }
{
    if flash::all_ones(&entry) {
        return Some(Reason::AllOnes);
    }
    if !sector_types::is_known(entry[1]) {
        return Some(Reason::UnknownType);
    }
    if !sector_item::crc_right(entry) {
        return Some(Reason::CrcWrong);
    }
    let span = entry[2] as usize;
    if span == 0 || span - 1 > left {
        return Some(Reason::SpanOffPage);
    }
    if !sector_types::kind_of(entry[1]).payload && span != 1 {
        return Some(Reason::WrongSpan);
    }
    None
}

// The rule that refuses an item by its payload: its size, then its CRC. An item without payload has none to refuse.
#[tactic(auto, unfolding(crate::specs::Reading::payload_refusal, sector::specs::Types::kind_of))]
fn payload_refusal(image: &[u8], index: usize, entry: [u8; 32]) -> Option<Reason>
    requires { (length image.now ≡ sector_size) × (0 < span_of entry) × (index + span_of entry ≤ entries_per_page) }
    ensures { result ≡ payload_refusal entry (take (covered entry) (drop (index + 1) (entries_of image.now))) }
{
    if !sector_types::kind_of(entry[1]).payload {
        return None;
    }
    let size = layout::size_of(entry);
    if size > ENTRY_SIZE * (entry[2] as usize - 1) {
        return Some(Reason::SizeTooBig);
    }
    let start = layout::entry_address(index + 1);
    let crc = crc::crc32(CRC_START, &image[start..start + size]);
    if crc != bytes::number_at(&entry, 28) {
        return Some(Reason::PayloadCrcWrong);
    }
    None
}

// The verdict at an entry that the map has as Written.
fn written_verdict(image: &[u8], map: [u8; 32], index: usize) -> Verdict
    requires { (length image.now ≡ sector_size) × (index < entries_per_page) }
    ensures { result ≡ verdict_at EntryMapState.Written (entry_at image.now index) (drop (index + 1) (states_of map)) (drop (index + 1) (entries_of image.now)) }
{
    let entry = layout::entry_at(image, index);
    if let Some(reason) = header_refusal(entry, ENTRIES_PER_PAGE - 1 - index) {
        return Verdict::RefusedEntry(reason);
    }
    let covered = entry[2] as usize - 1;
    if let Some(reason) = payload_refusal(image, index, entry) {
        return Verdict::RefusedItem(reason, covered);
    }
    if !all_usable(map, index + 1, covered) {
        return Verdict::RefusedItem(Reason::CoveredNotUsable, covered);
    }
    Verdict::Kept(covered)
}

// The verdict at an entry, by the map and by the bytes of this entry and of those after it.
pub fn verdict_at(image: &[u8], map: [u8; 32], index: usize) -> Verdict
    requires { (length image.now ≡ sector_size) × (index < entries_per_page) }
    ensures { result ≡ verdict_at (state_at map index) (entry_at image.now index) (drop (index + 1) (states_of map)) (drop (index + 1) (entries_of image.now)) }
{
    match sector_map::state_at(map, index) {
        EntryMapState::Written => written_verdict(image, map, index),
        EntryMapState::Empty | EntryMapState::Erased | EntryMapState::Illegal => Verdict::NotAnItem,
    }
}

// A walk over the entries of a page: the verdict at each entry that it comes to, with its index. After an item it goes on
// at the first entry that the item does not cover.
#[derive(Drop)]
pub struct Walk<'a> {
    image: &'a [u8],
    map: [u8; 32],
    index: usize,
}

impl<'a> Walk<'a> {
    // The walk from an entry on. An entry past the last has none after it.
    pub fn new(image: &'a [u8], map: [u8; 32], from: usize) -> Walk<'a>
        requires { length image.now ≡ sector_size }
        ensures image { result.image.now ≡ image.now }
        ensures map { result.map ≡ map }
        ensures index { result.index ≡ from }
    {
        Walk {
            image,
            map,
            index: from,
        }
    }
}

impl Iterator for Walk<'_> {
    ghost use Rattle.std.specs.Prelude.{◌≡◌, length};
    ghost use Rattle.sector.specs.Layout.{sector_size};
    ghost use Rattle.opening_reading.specs.Walk.{GivesVerdict, entries_left};

    type Item = (usize, Verdict);

    ghost can_next = { λ walk. length walk.image.now ≡ sector_size };

    ghost next_gives = { GivesVerdict };

    ghost remaining = { entries_left };

    fn next(&mut self) -> Option<(usize, Verdict)> {
        if self.index >= ENTRIES_PER_PAGE {
            return None;
        }
        let index = self.index;
        let verdict = verdict_at(self.image, self.map, index);
        self.index = index + 1 + steps_over(verdict);
        Some((index, verdict))
    }
}
