// The calls that write the page header (page.rs): initialise and mark full.
#![tactic(auto)]

ghost use Rattle.std.specs.Prelude.{◌≡◌};
ghost use Rattle.crc.specs.Crc.{crc32};
ghost use Rattle.sector.specs.Answers.{refusal};
ghost use Rattle.sector.specs.Header.{header_body};
ghost use Rattle.sector.specs.Item.{crc_start};
ghost use Rattle.call_page_state.specs.Calls.{initialise_checks, initialised, initialise, initialise_image, marked_full, mark_full, mark_full_image};

use page::ThinPage;
use sector::{PageState, Refusal, SECTOR_SIZE, VERSION, states};

// Whether a page can be initialised, in document 01's order.
fn initialize_refusal(image: &[u8], page: &ThinPage) -> Result<(), Refusal>
    ensures { result ≡ refusal (initialise_checks image.now page.now) }
{
    if image.len() != SECTOR_SIZE {
        return Err(Refusal::BadImage);
    }
    if !page.fit_to_use() {
        return Err(Refusal::BadRecord);
    }
    if !states::is_uninitialized(page.state) {
        return Err(Refusal::WrongState);
    }
    if !flash::all_ones(image) {
        return Err(Refusal::CorruptedData);
    }
    Ok(())
}

// The record of a page under its new header, whose CRC this is.
fn initialized(page: &ThinPage, sequence: u32, crc: u32) -> ThinPage
    requires { crc ≡ crc32 crc_start (header_body sequence) }
    ensures { result ≡ initialised page.now sequence }
{
    ThinPage {
        state: PageState::Active,
        sequence,
        version: VERSION,
        crc,
        ..*page
    }
}

// Writes the header of a new page (`ThinPage::initialize`): state Active, the sequence, version 0xFE. It is stopped
// after `stop` units where it has more.
//
// Refuses, in this order: BadImage, BadRecord, WrongState unless Uninitialized, CorruptedData unless the image is all
// 0xFF. The Rust checks nothing: over programmed bytes it leaves a header whose CRC is wrong.
pub fn initialize(
    image: &mut [u8],
    page: &mut ThinPage,
    sequence: u32,
    stop: usize,
) -> Result<(), Refusal>
    ensures answer { result ≡ (initialise image.old page.old sequence stop).answer }
    ensures page { page.new ≡ (initialise image.old page.old sequence stop).page }
    ensures image { image.new ≡ initialise_image image.old page.old sequence stop }
{
    initialize_refusal(image, page)?;
    let header = sector_header::header_bytes(sequence);
    let total = flash::write_aligned(image, 0, &header, stop);
    let crc = sector_header::header_crc(header);
    let new = initialized(page, sequence, crc);
    page_write::ended(page, new, stop, total)
}

// Writes the state word Full (`ThinPage::mark_as_full`).
//
// Refuses, in this order: BadImage, BadRecord, WrongState unless Active. The Rust checks nothing.
pub fn mark_as_full(image: &mut [u8], page: &mut ThinPage) -> Result<(), Refusal>
    ensures answer { result ≡ (mark_full image.old page.old).answer }
    ensures page { page.new ≡ (mark_full image.old page.old).page }
    ensures image { image.new ≡ mark_full_image image.old page.old }
{
    page_write::append_refusal(image, page)?;
    page_write::write_full(image, 1);
    page.state = PageState::Full;
    Ok(())
}
