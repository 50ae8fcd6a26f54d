// Pages to try the calls on.
use page::ThinPage;

// A page as it lies, and its record.
#[derive(Clone, Copy)]
pub struct Sector {
    pub image: [u8; 4096],
    pub page: ThinPage,
}

// How far a page with nothing in it has come: erased, then initialised, then marked full.
#[derive(Clone, Copy)]
pub enum Stage {
    Blank,
    Active,
    Full,
}

// A page with nothing in it.
pub fn empty(stage: Stage) -> Sector {
    let mut image = [0xFFu8; 4096];
    let mut page = ThinPage::uninitialized();
    if matches!(stage, Stage::Active | Stage::Full) {
        let _ = call_page_state::initialize(&mut image, &mut page, 1, 8);
    }
    if matches!(stage, Stage::Full) {
        let _ = call_page_state::mark_as_full(&mut image, &mut page);
    }
    Sector { image, page }
}

// The same, of whose record these entries are used and erased. The last byte of its map holds entries 124 and 125.
pub fn filled(stage: Stage, used: u8, erased: u8) -> Sector {
    let mut sector = empty(stage);
    sector.page.map[31] = match used {
        0..125 => 0xFF,
        125 => 0xFE,
        _ => 0xFA,
    };
    sector.page.used = used;
    sector.page.erased = erased;
    sector
}
