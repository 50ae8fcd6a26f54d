// Appending data of any length (page.rs): its header entry, and the data after it.
#![tactic(auto)]

ghost use Rattle.std.specs.Prelude.{OnOk, ◌≡◌, ◌++◌, ◌+◌, ◌≤◌, length, take};
ghost use Rattle.flash.specs.Flash.{units, run};
ghost use Rattle.page.specs.Record.{next_free};
ghost use Rattle.sector.specs.Answers.{refusal};
ghost use Rattle.sector.specs.Layout.{entry_address};
ghost use Rattle.sector.specs.Map.{mark_range};
ghost use Rattle.sector.specs.declared.EntryMapState.TheVariants.{Written};
ghost use Rattle.call_append.specs.Append.{Room, span_for, variable_request, variable_checks, variable_header, variable_plan, append_variable, append_variable_image};

use call_append::Variable;
use page::ThinPage;
use sector::{ENTRIES_PER_PAGE, ENTRY_SIZE, Refusal, layout};
use sector_hash::calculate_hash;
use sector_item::{item_bytes, sized_data};
use sector_types::kind_of;

// The entries that data of this length takes, its header among them.
fn span_for(size: usize) -> usize
    ensures { result ≡ span_for size }
{
    1 + size.div_ceil(ENTRY_SIZE)
}

// Whether append variable must refuse this request: its type has no payload, or it is in namespace 0.
#[tactic(auto, unfolding(sector::specs::Types::kind_of))]
fn is_bad_variable(item: Variable) -> bool
    ensures { result ≡ (variable_request item).0 }
{
    !kind_of(item.kind).payload || item.namespace == 0
}

// Whether the page takes this data, in document 01's order.
fn variable_refusal(
    image: &[u8],
    page: &ThinPage,
    item: Variable,
    payload: &[u8],
) -> Result<(), Refusal>
    ensures answer { result ≡ refusal (variable_checks image.now page.now item payload.now) }
    ensures room { OnOk result (Room image.now page.now (span_for (length payload.now))) }
{
    page_write::append_refusal(image, page)?;
    if is_bad_variable(item) {
        return Err(Refusal::BadRequest);
    }
    let span = span_for(payload.len());
    if span > ENTRIES_PER_PAGE {
        return Err(Refusal::ValueTooLong);
    }
    if span > page.get_free_entry_count() {
        return Err(Refusal::PageFull);
    }
    Ok(())
}

// The 32 bytes of the header entry.
fn header_of(item: Variable, payload: &[u8]) -> [u8; 32]
    requires { span_for (length payload.now) ≤ 126 }
    ensures { result ≡ variable_header item payload.now }
{
    item_bytes(
        item.namespace,
        item.kind,
        span_for(payload.len()) as u8,
        item.chunk,
        item.key,
        sized_data(payload),
    )
}

// Programs the header entry, then the data after it, and returns the units of both.
fn write_header_and_data(
    image: &mut [u8],
    header: &[u8; 32],
    payload: &[u8],
    start: usize,
    budget: usize,
) -> usize
    requires { (length image.old ≡ 4096) × (start + span_for (length payload.now) ≤ 126) }
    ensures total { result ≡ length (units (entry_address start) header.now ++ units (entry_address (start + 1)) payload.now) }
    ensures image { image.new ≡ run (take budget (units (entry_address start) header.now ++ units (entry_address (start + 1)) payload.now)) image.old }
{
    let entry = flash::write_aligned(image, layout::entry_address(start), header, budget);
    let left = budget.saturating_sub(entry);
    let data = flash::write_aligned(image, layout::entry_address(start + 1), payload, left);
    entry + data
}

// Programs the header entry, the data, their marks out of the new record's map, and the state word, and returns the units
// of all.
fn write_variable(
    image: &mut [u8],
    page: &ThinPage,
    item: Variable,
    payload: &[u8],
    map: [u8; 32],
    budget: usize,
) -> usize
    requires { (length image.old ≡ 4096) × (next_free page.now + span_for (length payload.now) ≤ 126) × (map ≡ mark_range Written (next_free page.now) (span_for (length payload.now)) page.now.map) }
    ensures total { result ≡ length (variable_plan page.now item payload.now) }
    ensures image { image.new ≡ run (take budget (variable_plan page.now item payload.now)) image.old }
{
    let start = page.get_next_free_entry();
    let header = header_of(item, payload);
    let bytes = write_header_and_data(image, &header, payload, start, budget);
    let span = span_for(payload.len());
    let sealed = page_write::seal(image, map, start, span, budget.saturating_sub(bytes));
    bytes + sealed
}

// Appends data (`ThinPage::write_variable_sized_item`): its header entry at next free, the data after it, their marks,
// and the state word where no entry is free then. It is stopped after `stop` units where it has more.
//
// Refuses, in this order: BadImage, BadRecord, WrongState unless Active, BadRequest unless the type is Sized, Blob or
// BlobData and the namespace is not 0, ValueTooLong over 126 entries, PageFull. The Rust checks the last two alone, and
// lists data of namespace 0.
#[tactic(auto, unfolding(page::specs::Record::with_item))]
pub fn write_variable_sized_item(
    image: &mut [u8],
    page: &mut ThinPage,
    item: Variable,
    payload: &[u8],
    stop: usize,
) -> Result<(), Refusal>
    ensures answer { result ≡ (append_variable image.old page.old item payload.now stop).answer }
    ensures page { page.new ≡ (append_variable image.old page.old item payload.now stop).page }
    ensures image { image.new ≡ append_variable_image image.old page.old item payload.now stop }
{
    variable_refusal(image, page, item, payload)?;
    let hash = calculate_hash(item.namespace, item.key, item.chunk);
    let new = page_write::with_item(page, span_for(payload.len()), item.namespace, hash);
    let total = write_variable(image, page, item, payload, new.map, stop);
    page_write::ended(page, new, stop, total)
}
