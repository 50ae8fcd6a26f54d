// Erase: data of a page, and entries that are none.
use std::io;
use test_writing_cases::items::DATA;
use test_writing_cases::records::Stage;
use test_writing_cases::{lines, records};

// On a page with this data, where its state lets one append, of which entries were erased before: 0 is none.
fn print_erase(
    rt: &impl Print,
    stage: Stage,
    payload: &[u8],
    before: usize,
    index: usize,
    span: usize,
) -> io::Result<()> {
    let mut sector = records::empty(stage);
    print!(rt;
        "erase, data of length {} on state {:#04x}, erased before {before}, index {index}, span {span}",
        payload.len(),
        sector.image[0]
    )?;
    let _ = call_append_variable::write_variable_sized_item(
        &mut sector.image,
        &mut sector.page,
        DATA,
        payload,
        1100,
    );
    let _ = call_erase::erase_item(&mut sector.image, &mut sector.page, 0, before);
    let answer = call_erase::erase_item(&mut sector.image, &mut sector.page, index, span);
    lines::print(rt, answer, &sector, 0)
}

// The entries erased before; index and span.
pub(crate) fn print_all(rt: &impl Print) -> io::Result<()> {
    for (before, index, span) in [
        (0usize, 0usize, 3usize),
        (0, 0, 4),
        (0, 3, 1),
        (0, 0, 0),
        (0, 125, 1),
        (0, 125, 2),
        (0, 126, 1),
        (3, 0, 3),
    ] {
        print_erase(rt, Stage::Active, &[0x42; 33], before, index, span)?;
    }
    print_erase(rt, Stage::Active, &[0x42; 4000], 0, 0, 126)?;
    print_erase(rt, Stage::Blank, &[], 0, 0, 0)
}
