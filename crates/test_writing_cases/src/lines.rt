// What a line says of a page: before a call, and after it.
use crate::records::Sector;
use sector::Refusal;
use std::io;
use test_print::Numbered;

// The page that a call is tried on: the first byte of its state word, and its counts.
pub(crate) fn print_page(rt: &impl Print, sector: &Sector) -> io::Result<()> {
    let page = &sector.page;
    print!(rt;
        ", on state {:#04x}, used {}, erased {}",
        sector.image[0], page.used, page.erased
    )
}

// The answer, the counts, the first byte of the state word, and a byte of the map as record and image have it.
pub fn print(
    rt: &impl Print,
    answer: Result<(), Refusal>,
    sector: &Sector,
    at: usize,
) -> io::Result<()> {
    let Sector { image, page } = sector;
    let place = at % 32;
    println!(rt;
        ": answer {}, used {}, erased {}, listed {}, state {:#04x}, map byte {place} {:#04x} {:#04x}",
        Numbered(answer),
        page.used,
        page.erased,
        page.len,
        image[0],
        page.map[place],
        image[32 + place]
    )
}
