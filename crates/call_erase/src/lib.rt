// Erasing (page.rs): `erase_item`.
#![tactic(auto)]

ghost use Rattle.std.specs.Prelude.{◌≡◌, true, false, ◌||◌, not, [], ◌∷◌, ◌+◌, ◌≤◌, eqb, ltb, length, take};
ghost use Rattle.page.specs.Record.{fit_to_use, without, padded, with_erased};
ghost use Rattle.sector.specs.declared.Refusal.TheVariants.{CorruptedData, NotWritten};
ghost use Rattle.sector.specs.Answers.{refusal};
ghost use Rattle.sector.specs.Layout.{entries_per_page};
ghost use Rattle.call_erase.specs.Erase.{all_written, erase_checks, erase, erase_image};

use page::{Listed, ThinPage};
use sector::{ENTRIES_PER_PAGE, EntryMapState, Refusal, SECTOR_SIZE, states};

// A unit is four bytes: the map has eight.
const UNITS: usize = 8;

// ---- checks

// Whether all these entries are Written in a map.
fn all_written(map: [u8; 32], index: usize, span: usize) -> bool
    requires { index + span ≤ entries_per_page }
    ensures { result ≡ all_written map index span }
{
    for i in index..index + span {
        if !sector_map::is_written(sector_map::state_at(map, i)) {
            return false;
        }
    }
    true
}

// Whether these entries can be erased: CorruptedData where there are none or they leave the page, NotWritten.
fn range_refusal(map: [u8; 32], index: usize, span: usize) -> Result<(), Refusal>
    ensures { result ≡ refusal (
        (eqb span 0 || ltb entries_per_page (index + span), CorruptedData)
        ∷ (not (all_written map index span), NotWritten)
        ∷ []) }
{
    if span == 0 {
        return Err(Refusal::CorruptedData);
    }
    if index > ENTRIES_PER_PAGE {
        return Err(Refusal::CorruptedData);
    }
    if span > ENTRIES_PER_PAGE - index {
        return Err(Refusal::CorruptedData);
    }
    if !all_written(map, index, span) {
        return Err(Refusal::NotWritten);
    }
    Ok(())
}

// The first check that refuses, in document 01's order.
fn erase_refusal(image: &[u8], page: &ThinPage, index: usize, span: usize) -> Result<(), Refusal>
    ensures { result ≡ refusal (erase_checks image.now page.now index span) }
{
    if image.len() != SECTOR_SIZE {
        return Err(Refusal::BadImage);
    }
    if !page.fit_to_use() {
        return Err(Refusal::BadRecord);
    }
    if !states::is_in_use(page.state) {
        return Err(Refusal::WrongState);
    }
    range_refusal(page.map, index, span)
}

// ---- the record

// A list of places, and how many are in use.
#[derive(Clone, Copy)]
struct Places {
    list: [Listed; 126],
    len: u8,
}

// The places in use that name another index, in their order, and zero places after them (`item_hash_list.retain`).
fn without(list: [Listed; 126], len: usize, index: usize) -> Places
    requires { len ≤ entries_per_page }
    ensures { (result.len ≡ length (without index (take len list))) × (result.list ≡ padded (without index (take len list))) }
{
    let none = Listed { hash: 0, index: 0 };
    let mut kept = [none; 126];
    let mut n: usize = 0;
    for k in 0..len {
        let place = list[k];
        if place.index as usize != index {
            kept[n] = place;
            n += 1;
        }
    }
    Places {
        list: kept,
        len: n as u8,
    }
}

// The record with these entries Erased and its list without their index.
fn with_erased(page: &ThinPage, index: usize, span: usize) -> ThinPage
    requires { (fit_to_use page.now ≡ true) × (index + span ≤ entries_per_page) × (all_written page.now.map index span ≡ true) }
    ensures { result ≡ with_erased page.now index span }
{
    let places = without(page.list, page.len as usize, index);
    let mut new = *page;
    new.map = sector_map::mark_range(page.map, EntryMapState::Erased, index, span);
    new.used -= span as u8;
    new.erased += span as u8;
    let list = places.list;
    new.list = list;
    new.len = places.len;
    new
}

// ---- the call

// Marks the entries of an item Erased (`ThinPage::erase_item`), all of which must be Written in the record; its bytes stay.
//
// Refuses, in this order: BadImage, BadRecord, WrongState unless Active, Full or Freeing, a span of 0 or entries that leave
// the page (CorruptedData), an entry that is not Written (NotWritten). The Rust checks none of these, and lets its counts
// saturate.
pub fn erase_item(
    image: &mut [u8],
    page: &mut ThinPage,
    index: usize,
    span: usize,
) -> Result<(), Refusal>
    ensures answer { result ≡ (erase image.old page.old index span).answer }
    ensures page { page.new ≡ (erase image.old page.old index span).page }
    ensures image { image.new ≡ erase_image image.old page.old index span }
{
    erase_refusal(image, page, index, span)?;
    *page = with_erased(page, index, span);
    page_write::write_marks(image, page.map, index, span, UNITS);
    Ok(())
}
