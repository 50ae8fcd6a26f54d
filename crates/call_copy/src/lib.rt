// Copying an item in from another sector (page.rs `copy_item_from`): its entries go over as they lie.
#![tactic(auto)]

ghost use Rattle.std.specs.Prelude.{OnOk, ◌≡◌, ◌||◌, not, [], ◌∷◌, ◌+◌, ◌<◌, eqb, ltb};
ghost use Rattle.page.specs.Writing.{over_free};
ghost use Rattle.sector.specs.declared.Refusal.TheVariants.{KeyNotFound, CorruptedData};
ghost use Rattle.sector.specs.Answers.{refusal};
ghost use Rattle.sector.specs.Item.{loads};
ghost use Rattle.sector.specs.Layout.{entries_per_page, span_of};
ghost use Rattle.call_copy.specs.Copy.{CopyFits, copy_checks, copy_in, copy_in_image};

use page::ThinPage;
use sector::{ENTRIES_PER_PAGE, Refusal, SECTOR_SIZE, layout};

// ---- checks

// Whether an entry heads an item that the page has room for: KeyNotFound where it does not load, CorruptedData where its
// span is 0 or leaves the source, PageFull.
fn item_refusal(page: &ThinPage, entry: [u8; 32], index: usize) -> Result<(), Refusal>
    requires { index < entries_per_page }
    ensures { result ≡ refusal (
        (not (loads entry), KeyNotFound)
        ∷ (eqb (span_of entry) 0 || ltb entries_per_page (index + span_of entry), CorruptedData)
        ∷ over_free page.now (span_of entry)
        ∷ []) }
{
    if !sector_item::loads(entry) {
        return Err(Refusal::KeyNotFound);
    }
    let span = entry[2] as usize;
    if span == 0 {
        return Err(Refusal::CorruptedData);
    }
    if span > ENTRIES_PER_PAGE - index {
        return Err(Refusal::CorruptedData);
    }
    if span > page.get_free_entry_count() {
        return Err(Refusal::PageFull);
    }
    Ok(())
}

// The first check that refuses, in document 01's order.
fn copy_refusal(image: &[u8], page: &ThinPage, source: &[u8], index: usize) -> Result<(), Refusal>
    ensures answer { result ≡ refusal (copy_checks image.now page.now source.now index) }
    ensures fits { OnOk result (CopyFits image.now page.now source.now index) }
{
    if image.len() != SECTOR_SIZE {
        return Err(Refusal::BadImage);
    }
    if source.len() != SECTOR_SIZE {
        return Err(Refusal::BadImage);
    }
    page_write::active_refusal(page)?;
    if index >= ENTRIES_PER_PAGE {
        return Err(Refusal::CorruptedData);
    }
    let entry = layout::entry_at(source, index);
    item_refusal(page, entry, index)
}

// ---- the call

// Copies an item from another sector (`ThinPage::copy_item_from`): its bytes as they lie go to next free in one write, then
// its marks, and the state word where no entry is free then. It is stopped after `stop` units where it has more.
//
// Refuses, in this order: an image or a source that is not 4,096 bytes (BadImage), BadRecord, WrongState unless Active, an
// index over 125 (CorruptedData), an entry that does not load (KeyNotFound), a span of 0 or one that leaves the source
// (CorruptedData), PageFull. The Rust is handed the item by its caller, who loaded it, and checks the last two alone.
pub fn copy_item_from(
    image: &mut [u8],
    page: &mut ThinPage,
    source: &[u8],
    index: usize,
    stop: usize,
) -> Result<(), Refusal>
    ensures answer { result ≡ (copy_in image.old page.old source.now index stop).answer }
    ensures page { page.new ≡ (copy_in image.old page.old source.now index stop).page }
    ensures image { image.new ≡ copy_in_image image.old page.old source.now index stop }
{
    copy_refusal(image, page, source, index)?;
    let entry = layout::entry_at(source, index);
    let span = entry[2] as usize;
    let hash = sector_hash::hash_of_item(entry);
    let new = page_write::with_item(page, span, entry[0], hash);
    let start = page.get_next_free_entry();
    let first = layout::entry_address(index);
    let end = layout::entry_address(index + span);
    let total = page_write::write_entries(image, &source[first..end], new.map, start, span, stop);
    page_write::ended(page, new, stop, total)
}
