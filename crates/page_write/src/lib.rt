// What the writing calls share: the checks before anything is written, an item's entries and marks under a budget of units,
// the new record, and what a call hands back.
#![tactic(auto)]

ghost use Rattle.std.specs.Prelude.{◌≡◌, true, cond, [], ◌∷◌, ◌++◌, ◌+◌, ◌≤◌, ◌*◌, ltb, length, take, Err};
ghost use Rattle.flash.specs.Flash.{units, run};
ghost use Rattle.sector.specs.Answers.{Done, refusal};
ghost use Rattle.sector.specs.Header.{state_bytes};
ghost use Rattle.sector.specs.Layout.{entry_address};
ghost use Rattle.sector.specs.Map.{map_units};
ghost use Rattle.sector.specs.declared.PageState.TheVariants.{Full};
ghost use Rattle.sector.specs.declared.Refusal.TheVariants.{Stopped};
ghost use Rattle.page.specs.Record.{next_free, fit_to_use, with_item};
ghost use Rattle.page.specs.Writing.{bad_image, bad_record, not_active, full_units};

use page::{Listed, ThinPage};
use sector::{
    ENTRIES_PER_PAGE, EntryMapState, MAP_OFFSET, PageState, Refusal, SECTOR_SIZE, layout, states,
};

// ---- checks

// Whether a record can take an item: BadRecord, then WrongState where it is not Active.
pub fn active_refusal(page: &ThinPage) -> Result<(), Refusal>
    ensures { result ≡ refusal (bad_record page.now ∷ not_active page.now ∷ []) }
{
    if !page.fit_to_use() {
        return Err(Refusal::BadRecord);
    }
    if !states::is_active(page.state) {
        return Err(Refusal::WrongState);
    }
    Ok(())
}

// The checks in front of every append: BadImage, then those of the record.
pub fn append_refusal(image: &[u8], page: &ThinPage) -> Result<(), Refusal>
    ensures { result ≡ refusal (bad_image image.now ∷ bad_record page.now ∷ not_active page.now ∷ []) }
{
    if image.len() != SECTOR_SIZE {
        return Err(Refusal::BadImage);
    }
    active_refusal(page)
}

// ---- entries, marks and the state word

// Programs the state word Full, and returns its units.
pub fn write_full(image: &mut [u8], budget: usize) -> usize
    requires { length image.old ≡ 4096 }
    ensures total { result ≡ length (units 0 (state_bytes Full)) }
    ensures image { image.new ≡ run (take budget (units 0 (state_bytes Full))) image.old }
{
    let word = sector::bytes::little_endian(sector::PAGE_STATE_FULL);
    flash::write_aligned(image, 0, &word, budget)
}

// Programs the units that hold the marks of these entries, out of a map already marked (`set_entry_state_range`),
// and returns how many they are.
pub fn write_marks(
    image: &mut [u8],
    map: [u8; 32],
    index: usize,
    span: usize,
    budget: usize,
) -> usize
    requires { (length image.old ≡ 4096) × (1 ≤ span) × (index + span ≤ 126) }
    ensures total { result ≡ length (map_units index span map) }
    ensures image { image.new ≡ run (take budget (map_units index span map)) image.old }
{
    let first = 4 * (index / 16);
    let end = 4 * ((index + span - 1) / 16) + 4;
    flash::write_aligned(image, MAP_OFFSET + first, &map[first..end], budget)
}

// Programs an item's marks, then the state word where no entry is free after it, and returns the units of both.
pub fn seal(image: &mut [u8], map: [u8; 32], start: usize, span: usize, budget: usize) -> usize
    requires { (length image.old ≡ 4096) × (1 ≤ span) × (start + span ≤ 126) }
    ensures total { result ≡ length (map_units start span map ++ full_units (start + span)) }
    ensures image { image.new ≡ run (take budget (map_units start span map ++ full_units (start + span))) image.old }
{
    let marks = write_marks(image, map, start, span, budget);
    if start + span != ENTRIES_PER_PAGE {
        return marks;
    }
    let full = write_full(image, budget.saturating_sub(marks));
    marks + full
}

// Programs an item's bytes from its first entry on, then its marks, then the state word, and returns the units of all.
//
// Bytes before marks: a power cut between them leaves entries that opening does not take for an item.
pub fn write_entries(
    image: &mut [u8],
    bytes: &[u8],
    map: [u8; 32],
    start: usize,
    span: usize,
    budget: usize,
) -> usize
    requires { (length image.old ≡ 4096) × (length bytes.now ≤ 32 * span) × (1 ≤ span) × (start + span ≤ 126) }
    ensures total { result ≡ length (units (entry_address start) bytes.now ++ (map_units start span map ++ full_units (start + span))) }
    ensures image { image.new ≡ run (take budget (units (entry_address start) bytes.now ++ (map_units start span map ++ full_units (start + span)))) image.old }
{
    let entries = flash::write_aligned(image, layout::entry_address(start), bytes, budget);
    let sealed = seal(image, map, start, span, budget.saturating_sub(entries));
    entries + sealed
}

// ---- the record

// The record with an item of so many entries at next free: marked, counted, listed unless in namespace 0, and Full where no
// entry is free then.
pub fn with_item(page: &ThinPage, span: usize, namespace: u8, hash: u32) -> ThinPage
    requires { (fit_to_use page.now ≡ true) × (1 ≤ span) × (next_free page.now + span ≤ 126) }
    ensures { result ≡ with_item page.now span namespace hash }
{
    let start = page.get_next_free_entry();
    let mut new = *page;
    new.map = sector_map::mark_range(page.map, EntryMapState::Written, start, span);
    new.used += span as u8;
    if start + span == ENTRIES_PER_PAGE {
        new.state = PageState::Full;
    }
    if namespace != 0 {
        new.list[page.len as usize] = Listed {
            hash,
            index: start as u8,
        };
        new.len += 1;
    }
    new
}

// ---- the end of a call

// What a call answers once its checks have accepted: Stopped where it was told to stop before its last unit, and the record
// stays as it came; else the record becomes the new one.
pub fn ended(page: &mut ThinPage, new: ThinPage, stop: usize, total: usize) -> Result<(), Refusal>
    ensures answer { result ≡ cond (ltb stop total) (Err Stopped) Done }
    ensures page { page.new ≡ cond (ltb stop total) page.old new }
{
    if stop < total {
        return Err(Refusal::Stopped);
    }
    *page = new;
    Ok(())
}
