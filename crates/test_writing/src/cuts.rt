// Calls cut by a stop, and what opening then finds.
use call_append::Single;
use page::ThinPage;
use sector::Refusal;
use std::io;
use test_writing_cases::items::{DATA, SINGLE};
use test_writing_cases::records::{Sector, Stage};
use test_writing_cases::{lines, records};

// A refused opening hands back no record: the Uninitialized one stands for it.
pub(crate) fn open(sector: &mut Sector) -> Result<(), Refusal> {
    let opened = opening::open_page(&mut sector.image);
    sector.page = opened.unwrap_or(ThinPage::uninitialized());
    opened.map(|_| ())
}

fn print_opened(rt: &impl Print, sector: &mut Sector, at: usize) -> io::Result<()> {
    let answer = open(sector);
    print!(rt; "then opened")?;
    lines::print(rt, answer, sector, at)
}

fn cut_initialise(rt: &impl Print) -> io::Result<()> {
    for n in [0usize, 1, 7, 8] {
        let mut sector = records::empty(Stage::Blank);
        let answer = call_page_state::initialize(&mut sector.image, &mut sector.page, 1, n);
        print!(rt; "initialise, cut at {n}")?;
        lines::print(rt, answer, &sector, 0)?;
        print_opened(rt, &mut sector, 0)?;
    }
    Ok(())
}

fn fifteen_singles() -> Sector {
    let mut sector = records::empty(Stage::Active);
    for chunk in 0..15u8 {
        let item = Single { chunk, ..SINGLE };
        let _ = call_append::write_item(&mut sector.image, &mut sector.page, item, 9);
    }
    sector
}

fn cut_data(rt: &impl Print) -> io::Result<()> {
    let singles = fifteen_singles();
    for n in [0usize, 1, 8, 9, 16, 17, 18] {
        let mut sector = singles;
        let answer = call_append_variable::write_variable_sized_item(
            &mut sector.image,
            &mut sector.page,
            DATA,
            &[0x42; 32],
            n,
        );
        print!(rt; "32 bytes at next free 15, cut at {n}")?;
        lines::print(rt, answer, &sector, 3)?;
        print_opened(rt, &mut sector, 3)?;
        print_opened(rt, &mut sector, 4)?;
    }
    Ok(())
}

pub(crate) fn print_all(rt: &impl Print) -> io::Result<()> {
    cut_initialise(rt)?;
    cut_data(rt)
}
