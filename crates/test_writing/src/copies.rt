// Copy in: items of a source image, whose entry the calls of `sector` make.
ghost use Rattle.std.specs.Prelude.{◌<◌};

use sector::{ENTRY_SIZE, ITEMS_OFFSET, bytes};
use std::io;
use test_writing_cases::records::{Sector, Stage};
use test_writing_cases::{appends, records, units};

// A source of one byte but for one header, at a place: the type byte that its CRC is made over, the one that it has, and its span.
#[derive(Clone, Copy)]
pub(crate) struct Source {
    pub(crate) rest: u8,
    pub(crate) place: usize,
    pub(crate) made: u8,
    pub(crate) kind: u8,
    pub(crate) span: u8,
}

// Data of three entries.
const DATA: Source = Source {
    rest: 0,
    place: 0,
    made: 0x21,
    kind: 0x21,
    span: 3,
};

impl Source {
    pub(crate) fn image(&self) -> [u8; 4096]
        requires { self.now.place < 126 }
    {
        let mut entry = sector_item::item_bytes(
            1, self.made, self.span, 255, [0x63; 16], [0x42; 8],
        );
        entry[1] = self.kind;
        let mut image = [self.rest; 4096];
        bytes::put(&mut image, ITEMS_OFFSET + ENTRY_SIZE * self.place, &entry);
        image
    }
}

fn print_copy(
    rt: &impl Print,
    source: Source,
    index: usize,
    sector: Sector,
    at: usize,
) -> io::Result<()>
    requires { source.place < 126 }
{
    print!(rt;
        "copy, source of {:#04x}, at {} type {:#04x} with a CRC over {:#04x}, span {}, index {index}",
        source.rest, source.place, source.kind, source.made, source.span
    )?;
    let bytes = source.image();
    units::print(
        rt,
        |image, page, n| call_copy::copy_item_from(image, page, &bytes, index, n),
        sector,
        at,
    )
}

// The source's byte; the entry's place, type and span; the index copied.
fn print_places(rt: &impl Print) -> io::Result<()> {
    for (rest, place, kind, span, index) in [
        (0u8, 0usize, 0x21u8, 0u8, 0usize),
        (0, 0, 0x01, 1, 0),
        (0, 123, 0x21, 3, 123),
        (0, 124, 0x21, 3, 124),
        (0, 125, 0x01, 1, 126),
        (0xFF, 1, 0x01, 1, 0),
    ] {
        let source = Source {
            rest,
            place,
            made: kind,
            kind,
            span,
        };
        print_copy(rt, source, index, records::empty(Stage::Active), 0)?;
    }
    Ok(())
}

fn print_pages(rt: &impl Print) -> io::Result<()> {
    for (stage, used) in [
        (Stage::Active, 123u8),
        (Stage::Active, 124),
        (Stage::Full, 126),
    ] {
        print_copy(rt, DATA, 0, records::filled(stage, used, 0), 31)?;
    }
    Ok(())
}

fn print_types(rt: &impl Print) -> io::Result<()> {
    for (made, kind) in [(0xFFu8, 0x05u8), (0x05, 0x05), (0xFF, 0xFF)] {
        let source = Source {
            made,
            kind,
            span: 1,
            ..DATA
        };
        print_copy(rt, source, 0, records::empty(Stage::Active), 0)?;
    }
    Ok(())
}

pub(crate) fn print_all(rt: &impl Print) -> io::Result<()> {
    print_places(rt)?;
    print_pages(rt)?;
    print_types(rt)?;
    let any = Source {
        made: 0xFF,
        kind: 0xFF,
        span: 1,
        ..DATA
    }
    .image();
    appends::print_entry(rt, b"copy, type 0xff", |image, page| {
        call_copy::copy_item_from(image, page, &any, 0, 9)
    })
}
