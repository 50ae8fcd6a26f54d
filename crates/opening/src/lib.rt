// Opening a sector: the reading, and the map and record that it leaves. Added by this port.
#![tactic(auto)]

ghost use Rattle.std.specs.Prelude.{◌≡◌, cond, Ok, Err, length, take};
ghost use Rattle.flash.specs.Flash.{run};
ghost use Rattle.page.specs.Writing.{stops};
ghost use Rattle.sector.specs.Answers.{value_where_done};
ghost use Rattle.sector.specs.declared.Refusal.TheVariants.{Stopped};
ghost use Rattle.sector.specs.Layout.{sector_size};
ghost use Rattle.opening.specs.Opening.{opened_page, opening_plan, opening, opening_image, opening_stopped, opening_stopped_image};

use listing::Listing;
use opening_found::Header;
use page::ThinPage;
use sector::{Refusal, SECTOR_SIZE};

mod listing;
mod plan;
mod walk;

// What the walk leaves: the map with its marks, which entries are headers of refused payload items, the kept items.
#[derive(Drop)]
pub(crate) struct Walked {
    pub map: [u8; 32],
    pub heads: [bool; 126],
    pub listing: Listing,
}

// What opening does to a page that opens: the map before it, the map after its first pass, and the record, with the map that
// it leaves.
#[derive(Clone, Copy)]
pub(crate) struct Changes {
    pub map: [u8; 32],
    pub first: [u8; 32],
    pub page: ThinPage,
}

// The record of a page that opens, and how many units its opening has.
#[derive(Clone, Copy)]
pub(crate) struct Opened {
    pub page: ThinPage,
    pub total: usize,
}

// No opening has more units: the map has eight, and there are two passes.
const MOST_UNITS: usize = 16;

// Programs what opening changes in the map of a page that opens, in two passes, at most a budget of its units, and hands back
// its record and how many units it has in all.
fn opened_page(image: &mut [u8], budget: usize) -> Opened
    requires { length image.old ≡ sector_size }
    ensures opened { (result.page ≡ opened_page image.old) × (result.total ≡ length (opening_plan image.old)) }
    ensures image { image.new ≡ run (take budget (opening_plan image.old)) image.old }
{
    let Changes { map, first, page } = plan::changes(image);
    let marked = opening_marks::program_changes(image, map, first, budget);
    let left = budget.saturating_sub(marked);
    let programmed = opening_marks::program_changes(image, first, page.map, left);
    Opened {
        page,
        total: marked + programmed,
    }
}

// Opens a page whose header opens: Stopped where it was told to stop before its last unit.
fn open_entries(image: &mut [u8], stop: usize) -> Result<ThinPage, Refusal>
    requires { length image.old ≡ sector_size }
    ensures opened { result ≡ cond (stops stop (opening_plan image.old)) (Err Stopped) (Ok (opened_page image.old)) }
    ensures image { image.new ≡ run (take stop (opening_plan image.old)) image.old }
{
    let opened = opened_page(image, stop);
    if stop < opened.total {
        return Err(Refusal::Stopped);
    }
    Ok(opened.page)
}

// Opens a page as `open_page` does, and is stopped after `stop` units where it has more: 11 then, with no record.
//
// A power cut during opening is taken to leave what this leaves. Opened again, the page gives what one whole opening gives.
pub fn open_stopped(image: &mut [u8], stop: usize) -> Result<ThinPage, Refusal>
    ensures opened { result ≡ value_where_done (opening_stopped image.old stop).answer (opening_stopped image.old stop).page }
    ensures image { image.new ≡ opening_stopped_image image.old stop }
{
    if image.len() != SECTOR_SIZE {
        return Err(Refusal::BadImage);
    }
    match opening_found::header_verdict(image) {
        Ok(Header::Blank) => Ok(ThinPage::uninitialized()),
        Ok(Header::Opens) => open_entries(image, stop),
        Err(_) => Err(Refusal::CorruptedData),
    }
}

// Opens a page: reads its header and its entries, marks in the map what the reading refused, and hands back the record.
//
// Refuses an image that is not 4,096 bytes (BadImage), then, each as CorruptedData, a state that is not Active, Full or Freeing,
// a version that is not 0xFE, and a wrong header CRC. A page whose bytes are all 0xFF is accepted as Uninitialized. A refusal
// changes nothing and hands back no record: what stands for it is the Uninitialized one, `ThinPage::uninitialized`.
//
// Added by this port: the Rust's page scan is another reading, by other rules. The map is programmed in two passes, and only
// where it changes, so that an opening cut by a power loss, opened again, gives what one whole opening gives.
pub fn open_page(image: &mut [u8]) -> Result<ThinPage, Refusal>
    ensures opened { result ≡ value_where_done (opening image.old).answer (opening image.old).page }
    ensures image { image.new ≡ opening_image image.old }
{
    open_stopped(image, MOST_UNITS)
}
