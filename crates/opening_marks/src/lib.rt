// The marks that opening leaves after the walk: entries before the free tail shut, and the map in two passes.
#![tactic(auto)]

ghost use Rattle.std.specs.Prelude.{◌≡◌, ◌&&◌, not, cond, ◌+◌, ◌*◌, ◌<◌, ◌≤◌, length, take};
ghost use Rattle.flash.specs.Flash.{all_ones, run};
ghost use Rattle.sector.specs.Layout.{sector_size, entries_per_page, entry_at, entries_of, same_bytes};
ghost use Rattle.sector.specs.Map.{states_of, state_at, same_state, mark_range};
ghost use Rattle.opening_reading.specs.Reading.{is_empty, shut_before_tail};
ghost use Rattle.opening_marks.specs.Marks.{HasStates, shut_to, first_pass, map_unit, changed_unit, changed_units};

use sector::{ENTRIES_PER_PAGE, EntryMapState, MAP_OFFSET, layout};

// Whether an entry can be of the free tail: Empty, and all 0xFF.
fn is_free(image: &[u8], map: [u8; 32], index: usize) -> bool
    requires { (length image.now ≡ sector_size) × (index < entries_per_page) }
    ensures { result ≡ (is_empty (state_at map index) && all_ones (entry_at image.now index)) }
{
    sector_map::state_at(map, index) == EntryMapState::Empty
        && flash::all_ones(&layout::entry_at(image, index))
}

// Where the free tail starts, from the page's end down.
fn tail_start(image: &[u8], map: [u8; 32]) -> usize
    requires { length image.now ≡ sector_size }
    ensures { (result ≤ entries_per_page) × (shut_before_tail (states_of map) (entries_of image.now) ≡ shut_to result (states_of map)) }
{
    for index in (0..ENTRIES_PER_PAGE).rev() {
        if !is_free(image, map, index) {
            return index + 1;
        }
    }
    0
}

// The map with an entry Erased, unless it is Written.
fn shut_entry(map: [u8; 32], index: usize) -> [u8; 32]
    requires { index < entries_per_page }
    ensures { result ≡ cond (same_state (state_at map index) EntryMapState.Written) map (mark_range EntryMapState.Erased index 1 map) }
{
    if sector_map::state_at(map, index) == EntryMapState::Written {
        return map;
    }
    sector_map::mark_range(map, EntryMapState::Erased, index, 1)
}

// The map with each entry before an end Erased, unless it is Written.
fn shut_to(map: [u8; 32], end: usize) -> [u8; 32]
    requires { end ≤ entries_per_page }
    ensures { HasStates map (shut_to end (states_of map)) result }
{
    (0..end).fold(map, shut_entry)
}

// Before the free tail every Empty or Illegal entry becomes Erased.
pub fn shut_before_tail(image: &[u8], map: [u8; 32]) -> [u8; 32]
    requires { length image.now ≡ sector_size }
    ensures { HasStates map (shut_before_tail (states_of map) (entries_of image.now)) result }
{
    let start = tail_start(image, map);
    shut_to(map, start)
}

// The map with the upper bit of an entry cleared, if it becomes Erased and is not the header of a refused payload item.
fn clear_upper(map: [u8; 32], opened: [u8; 32], head: bool, index: usize) -> [u8; 32]
    requires { index < entries_per_page }
    ensures { result ≡ cond (same_state (state_at opened index) EntryMapState.Erased && not head) (mark_range EntryMapState.Illegal index 1 map) map }
{
    if sector_map::state_at(opened, index) == EntryMapState::Erased && !head {
        return sector_map::mark_range(map, EntryMapState::Illegal, index, 1);
    }
    map
}

// The map after the first pass, from the map before opening, the one that it leaves, and the refused headers.
pub fn first_pass(map: [u8; 32], opened: [u8; 32], heads: [bool; 126]) -> [u8; 32]
    ensures { HasStates map (first_pass (states_of map) (states_of opened) heads) result }
{
    let mut marked = map;
    for (index, head) in heads.iter().enumerate() {
        let next = clear_upper(marked, opened, *head, index);
        marked = next;
    }
    marked
}

// Whether two maps have the same bytes in a unit.
fn same_unit(old: [u8; 32], new: [u8; 32], unit: usize) -> bool
    requires { unit < 8 }
    ensures { result ≡ same_bytes (map_unit unit old) (map_unit unit new) }
{
    let start = 4 * unit;
    old[start..start + 4] == new[start..start + 4]
}

// Programs a unit of the new map, unless it is as in the old one or the budget has no unit left, and returns how many units
// it has.
#[tactic(auto, unfolding(flash::specs::Flash::run))]
fn program_unit(image: &mut [u8], old: [u8; 32], new: [u8; 32], unit: usize, budget: usize) -> usize
    requires { (length image.old ≡ sector_size) × (unit < 8) }
    ensures total { result ≡ length (changed_unit unit old new) }
    ensures image { image.new ≡ run (take budget (changed_unit unit old new)) image.old }
{
    if same_unit(old, new, unit) {
        return 0;
    }
    let start = 4 * unit;
    flash::write_aligned(image, MAP_OFFSET + start, &new[start..start + 4], budget)
}

// Programs the units in which a new map differs from the old one, in rising address, at most a budget of them, and returns
// how many they are in all.
pub fn program_changes(image: &mut [u8], old: [u8; 32], new: [u8; 32], budget: usize) -> usize
    requires { length image.old ≡ sector_size }
    ensures total { result ≡ length (changed_units 0 8 old new) }
    ensures image { image.new ≡ run (take budget (changed_units 0 8 old new)) image.old }
{
    let mut done: usize = 0;
    for unit in 0..8usize {
        done += program_unit(image, old, new, unit, budget.saturating_sub(done));
    }
    done
}
