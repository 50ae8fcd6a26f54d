// The entry map: two bits an entry, entry i at bit 2 * (i mod 4) of map byte i / 4.
#![tactic(auto)]

ghost use Rattle.std.specs.Prelude.{◌≡◌, ◌+◌, ◌/◌, ◌%◌, ◌^◌, ◌<◌, ◌≤◌, length};
ghost use Rattle.sector.specs.Answers.{value_where_done};
ghost use Rattle.sector.specs.declared.EntryMapState.TheVariants.{Written};
ghost use Rattle.sector.specs.Map.{bits_of, state_of_bits, same_state, state_at, unpack, entry_state, statistics, mark_mask, mark_range};
ghost use Rattle.sector.specs.Layout.{number, field};
ghost use Rattle.sector_map.specs.Words.{word_states, word_statistics};

use sector::{ENTRIES_PER_PAGE, EntryMapState, Refusal, Statistics, bytes};

// One bit for each of the 32 entries of a map word, at the place of its lower bit.
const MASK: u64 = 0x5555_5555_5555_5555;

// The same for the last word, which has 30 entries.
const LAST_MASK: u64 = 0x0555_5555_5555_5555;

// The two bits of a state.
pub fn bits_of(state: EntryMapState) -> u8
    ensures { result ≡ bits_of state }
{
    state as u8
}

// Whether an entry in this state is Written.
pub fn is_written(state: EntryMapState) -> bool
    ensures { result ≡ same_state Written state }
{
    matches!(state, EntryMapState::Written)
}

// The state in one of the four pairs of a map byte, the lowest first.
#[tactic(auto, using(flash::proofs::Lists::pow_four))]
fn state_of_pair(byte: u8, pair: usize) -> EntryMapState
    requires { pair < 4 }
    ensures { result ≡ state_of_bits (byte / 4 ^ pair % 4) }
{
    match (byte >> (2 * pair)) % 4 {
        0b00 => EntryMapState::Erased,
        0b01 => EntryMapState::Illegal,
        0b10 => EntryMapState::Written,
        _ => EntryMapState::Empty,
    }
}

// The state that a map holds for an entry of the page.
pub fn state_at(map: [u8; 32], index: usize) -> EntryMapState
    requires { index < 126 }
    ensures { result ≡ state_at map index }
{
    state_of_pair(map[index / 4], index % 4)
}

// The state that a map holds for an entry (`ThinPage::get_entry_state`).
//
// An index over 125 is CorruptedData. The Rust does not check it: at 126 and 127 it reads the last byte's top
// four bits, which belong to no entry, and from 128 on there is no byte.
#[tactic(auto, unfolding(sector::specs::Map::entry_state))]
pub fn get_entry_state(map: [u8; 32], index: usize) -> Result<EntryMapState, Refusal>
    ensures { result ≡ value_where_done (entry_state map index).answer (entry_state map index).state }
{
    if index >= ENTRIES_PER_PAGE {
        return Err(Refusal::CorruptedData);
    }
    Ok(state_at(map, index))
}

// The eight map bytes from an offset on as one word, which holds their 32 entries.
fn word_at(map: &[u8], offset: usize) -> u64
    requires { offset + 8 ≤ length map.now }
    ensures word { result ≡ number (field offset 8 map.now) }
    ensures entries { word_states 32 result ≡ unpack (field offset 8 map.now) }
{
    u64::from_le_bytes(bytes::array_of(&map[offset..offset + 8]))
}

// How many entries of a word are in each state: for each state the word is masked, and the ones are counted.
#[tactic(auto, unfolding(crate::specs::Words::masked, crate::specs::Words::word_statistics))]
fn word_statistics(word: u64, mask: u64) -> Statistics
    ensures { result ≡ word_statistics mask word }
{
    let low = word & mask;
    let high = (word >> 1) & mask;
    Statistics {
        empty: u64::count_ones(high & low),
        written: u64::count_ones(high & (low ^ mask)),
        erased: u64::count_ones((high ^ mask) & (low ^ mask)),
        illegal: u64::count_ones((high ^ mask) & low),
    }
}

// How many entries of the page are in each state (`ThinPage::get_entry_statistics`): the four counts add up to
// 126, by the law `statistics_sum`.
//
// A word of 32 entries at a time. The last word has 30: its top four bits belong to no entry, and its mask leaves them out.
#[tactic(auto, using(crate::proofs::Words::word_counts_small))]
pub fn get_entry_statistics(map: [u8; 32]) -> Statistics
    ensures { result ≡ statistics map }
{
    let first = word_statistics(word_at(&map, 0), MASK);
    let second = word_statistics(word_at(&map, 8), MASK);
    let third = word_statistics(word_at(&map, 16), MASK);
    let last = word_statistics(word_at(&map, 24), LAST_MASK);
    first + second + third + last
}

// A byte of ones but for a state's bits at one of its four pairs.
#[tactic(auto, using(crate::proofs::Words::shifted))]
fn mark_mask(state: EntryMapState, pair: usize) -> u8
    requires { pair < 4 }
    ensures { result ≡ mark_mask state pair }
{
    0xFF - ((0b11 - bits_of(state)) << (2 * pair))
}

// A map in which the bits of `span` entries from `index` on are ANDed with a state's: the part of
// `ThinPage::set_entry_state_range` that changes the record's map. Programming it is the caller's.
//
// By index, since four entries share a byte.
#[tactic(auto, unfolding(sector::specs::Map::mark_range))]
pub fn mark_range(map: [u8; 32], state: EntryMapState, index: usize, span: usize) -> [u8; 32]
    requires { index + span ≤ 126 }
    ensures { result ≡ mark_range state index span map }
{
    let mut out = map;
    for i in index..index + span {
        out[i / 4] &= mark_mask(state, i % 4);
    }
    out
}
