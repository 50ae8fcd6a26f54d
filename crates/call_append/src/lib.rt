// Appending items (page.rs): a single entry, a namespace. Data of any length is appended by `call_append_variable`; its
// definitions are here.
#![tactic(auto)]

ghost use Rattle.std.specs.Prelude.{OnOk, ◌≡◌, ◌+◌, ◌≤◌, length, take};
ghost use Rattle.flash.specs.Flash.{run};
ghost use Rattle.page.specs.Record.{next_free};
ghost use Rattle.sector.specs.Answers.{refusal};
ghost use Rattle.sector.specs.Map.{mark_range};
ghost use Rattle.sector.specs.declared.EntryMapState.TheVariants.{Written};
ghost use Rattle.call_append.specs.Append.{Room, is_single, single_request, single_checks, single_plan, append_single, append_single_image, namespace_item};

use page::ThinPage;
use sector::{ItemType, Refusal};
use sector_hash::calculate_hash;
use sector_item::item_bytes;
use sector_types::kind_of;

// A single entry to append: one of the eight primitives, or BlobIndex.
#[derive(Clone, Copy, PartialEq, Eq)]
pub struct Single {
    pub namespace: u8,
    pub kind: u8,
    pub span: usize,
    pub chunk: u8,
    pub key: [u8; 16],
    pub bytes: [u8; 8],
}

// The header of data to append: Sized, Blob or BlobData.
#[derive(Clone, Copy, PartialEq, Eq)]
pub struct Variable {
    pub namespace: u8,
    pub kind: u8,
    pub chunk: u8,
    pub key: [u8; 16],
}

// Whether a type is one of the eight primitives, or BlobIndex.
fn is_single(named: ItemType) -> bool
    ensures { result ≡ is_single named }
{
    matches!(
        named,
        ItemType::U8
            | ItemType::I8
            | ItemType::U16
            | ItemType::I16
            | ItemType::U32
            | ItemType::I32
            | ItemType::U64
            | ItemType::I64
            | ItemType::BlobIndex
    )
}

// Whether append single must refuse this request: its type is none of the nine, or its span is not 1.
#[tactic(auto, unfolding(sector::specs::Types::kind_of))]
fn is_bad_single(item: Single) -> bool
    ensures { result ≡ (single_request item).0 }
{
    !is_single(kind_of(item.kind).named) || item.span != 1
}

// Whether the page takes this single entry, in document 01's order.
fn single_refusal(image: &[u8], page: &ThinPage, item: Single) -> Result<(), Refusal>
    ensures answer { result ≡ refusal (single_checks image.now page.now item) }
    ensures room { OnOk result (Room image.now page.now 1) }
{
    page_write::append_refusal(image, page)?;
    if is_bad_single(item) {
        return Err(Refusal::BadRequest);
    }
    if page.get_free_entry_count() < 1 {
        return Err(Refusal::PageFull);
    }
    Ok(())
}

// Programs the single entry, its mark out of the new record's map, and the state word, and returns the units of all.
#[tactic(auto, unfolding(crate::specs::Append::single_plan, page::specs::Writing::item_plan))]
fn write_single(
    image: &mut [u8],
    page: &ThinPage,
    item: Single,
    map: [u8; 32],
    budget: usize,
) -> usize
    requires { (length image.old ≡ 4096) × (next_free page.now + 1 ≤ 126) × (map ≡ mark_range Written (next_free page.now) 1 page.now.map) }
    ensures total { result ≡ length (single_plan page.now item) }
    ensures image { image.new ≡ run (take budget (single_plan page.now item)) image.old }
{
    let entry = item_bytes(
        item.namespace,
        item.kind,
        1,
        item.chunk,
        item.key,
        item.bytes,
    );
    page_write::write_entries(image, &entry, map, page.get_next_free_entry(), 1, budget)
}

// Appends a single entry (`ThinPage::write_item`): the entry at next free, its mark, and the state word where no entry is
// free then. It is stopped after `stop` units where it has more.
//
// Refuses, in this order: BadImage, BadRecord, WrongState unless Active, BadRequest unless the type is a primitive or
// BlobIndex and the span is 1, PageFull. The Rust checks the last alone: it takes other types, and at span 0 it writes
// past a full page.
#[tactic(auto, unfolding(page::specs::Record::with_item))]
pub fn write_item(
    image: &mut [u8],
    page: &mut ThinPage,
    item: Single,
    stop: usize,
) -> Result<(), Refusal>
    ensures answer { result ≡ (append_single image.old page.old item stop).answer }
    ensures page { page.new ≡ (append_single image.old page.old item stop).page }
    ensures image { image.new ≡ append_single_image image.old page.old item stop }
{
    single_refusal(image, page, item)?;
    let hash = calculate_hash(item.namespace, item.key, item.chunk);
    let new = page_write::with_item(page, 1, item.namespace, hash);
    let total = write_single(image, page, item, new.map, stop);
    page_write::ended(page, new, stop, total)
}

// Appends a namespace entry (`ThinPage::write_namespace`): a single U8 in namespace 0, which is not listed.
//
// Refuses as `write_item` does, but for BadRequest.
pub fn write_namespace(
    image: &mut [u8],
    page: &mut ThinPage,
    key: [u8; 16],
    value: u8,
    stop: usize,
) -> Result<(), Refusal>
    ensures answer { result ≡ (append_single image.old page.old (namespace_item key value) stop).answer }
    ensures page { page.new ≡ (append_single image.old page.old (namespace_item key value) stop).page }
    ensures image { image.new ≡ append_single_image image.old page.old (namespace_item key value) stop }
{
    let item = Single {
        namespace: 0,
        kind: ItemType::U8 as u8,
        span: 1,
        chunk: 0xFF,
        key,
        bytes: [value, 0xFF, 0xFF, 0xFF, 0xFF, 0xFF, 0xFF, 0xFF],
    };
    write_item(image, page, item, stop)
}
