// Initialise and mark full.
use crate::records::Stage;
use crate::{lines, records, units};
use std::io;

// An image that ends in this byte.
fn print_initialise(rt: &impl Print) -> io::Result<()> {
    for (last, stage) in [
        (0xFFu8, Stage::Blank),
        (0xFE, Stage::Blank),
        (0xFF, Stage::Active),
    ] {
        let mut sector = records::empty(stage);
        sector.image[4095] = last;
        print!(rt; "initialise, last byte {last:#04x}")?;
        units::print(
            rt,
            |image, page, n| call_page_state::initialize(image, page, 1, n),
            sector,
            0,
        )?;
    }
    Ok(())
}

fn print_mark_full(rt: &impl Print) -> io::Result<()> {
    for stage in [Stage::Active, Stage::Full] {
        let mut sector = records::empty(stage);
        print!(rt; "mark full")?;
        lines::print_page(rt, &sector)?;
        let answer = call_page_state::mark_as_full(&mut sector.image, &mut sector.page);
        lines::print(rt, answer, &sector, 0)?;
    }
    Ok(())
}

pub(crate) fn print_all(rt: &impl Print) -> io::Result<()> {
    print_initialise(rt)?;
    print_mark_full(rt)
}
