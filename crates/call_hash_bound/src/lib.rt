// How many items outside namespace 0 a page can hold (page.rs, hashed_item_bound).
#![tactic(auto)]

ghost use Rattle.std.specs.Prelude.{◌≡◌, List, ℕ, ◌≤◌, length, drop};
ghost use Rattle.sector.specs.Map.{states_of};
ghost use Rattle.call_hash_bound.specs.Bound.{passed_behind, count_of, bound_from, hash_bound};

use sector::ENTRIES_PER_PAGE;

// One if the namespace is not 0.
fn count_of(entry: [u8; 32]) -> usize
    ensures { result ≡ count_of entry }
{
    if entry[0] == 0 {
        return 0;
    }
    1
}

// Entries to pass after a Written one, of which `left` are left on the page: its span less 1 if that is
// at least 1 and fits, else none.
fn passed_behind(entry: [u8; 32], left: usize) -> usize
    ensures { ((rest : List (List ℕ)) → length rest ≡ left → result ≡ passed_behind entry rest) × (result ≤ left) }
{
    let span = entry[2] as usize;
    if span < 1 {
        return 0;
    }
    if span - 1 > left {
        return 0;
    }
    span - 1
}

// The walk from an index on: it calls itself at the next index.
fn bound_from(map: [u8; 32], entries: [[u8; 32]; 126], index: usize) -> usize
    requires { index ≤ 126 }
    ensures { result ≡ bound_from 0 (drop index (states_of map)) (drop index entries) }
{
    if index >= ENTRIES_PER_PAGE {
        return 0;
    }
    if !sector_map::is_written(sector_map::state_at(map, index)) {
        return bound_from(map, entries, index + 1);
    }
    let entry = entries[index];
    let count = count_of(entry);
    let passed = passed_behind(entry, 125 - index);
    count + bound_from(map, entries, index + 1 + passed)
}

// An upper bound on the items outside namespace 0 that a page holds (`ThinPage::hashed_item_bound`), by a
// walk from header to header over its map and its 126 entries.
//
// Entries are passed by value, and the walk calls itself; the Rust lends them, and loops. Each call holds a
// copy of the entries, so a page of single entries takes half a megabyte of stack.
pub fn hashed_item_bound(map: [u8; 32], entries: [[u8; 32]; 126]) -> usize
    ensures { result ≡ hash_bound map entries }
{
    bound_from(map, entries, 0)
}
