// What a page gives to load, raw read and load data: of the last, the size and how many of the output's 100 bytes became the sector's.
ghost use Rattle.std.specs.Prelude.{◌<◌, ◌≤◌};

use crate::images::{FILLED, Item};
use sector::Refusal;
use std::io;
use test_print::Numbered;

// Data in the first entry.
const DATA: Item = Item {
    over: 0x21,
    kind: 0x21,
    span: 1,
    size: 0,
};

// The type byte of an entry, and 0 where the call hands back none.
fn type_of(read: Result<[u8; 32], Refusal>) -> u8 {
    read.map_or(0, |entry| entry[1])
}

// For the first `room` bytes of the output: the others must stay.
fn print_reads(rt: &impl Print, image: &[u8], index: usize, room: usize) -> io::Result<()>
    requires { room ≤ 100 }
{
    let loaded = call_load::load_item(image, index);
    let raw = call_load::read_raw_entry(image, index);
    let mut output = [0xA5u8; 100];
    let read = call_load_data::load_referenced_data_into(image, index, &mut output[..room]);
    let filled = output.iter().filter(|&&byte| byte == FILLED).count();
    println!(rt;
        "  index {index}: load answer {}, type {:#04x}; raw read answer {}, type {:#04x}; load data into {room}: size {}, bytes {filled}: answer {}",
        Numbered(loaded),
        type_of(loaded),
        Numbered(raw),
        type_of(raw),
        read.unwrap_or(0),
        Numbered(read)
    )
}

// An item whose header is the entry `at`, and what the entry `index` gives.
fn print_item(rt: &impl Print, item: Item, at: usize, index: usize, room: usize) -> io::Result<()>
    requires { (at < 126) × (room ≤ 100) }
{
    let Item {
        over,
        kind,
        span,
        size,
    } = item;
    println!(rt;
        "item at {at}, CRC over type {over:#04x}, type {kind:#04x}, span {span}, size {size}"
    )?;
    print_reads(rt, &item.page(at), index, room)
}

pub(crate) fn print_types(rt: &impl Print) -> io::Result<()> {
    for (over, kind, span, size) in [
        (0x01u8, 0x01u8, 1u8, 0u8),
        (0x01, 0x11, 1, 0),
        (0x48, 0x48, 1, 0),
        (0xFF, 0xFF, 1, 0),
        (0xFF, 0x05, 1, 0),
        (0x05, 0x05, 1, 0),
        (0x21, 0x21, 2, 4),
        (0x41, 0x41, 2, 4),
        (0x42, 0x42, 2, 4),
        (0x21, 0x41, 2, 4),
    ] {
        let item = Item {
            over,
            kind,
            span,
            size,
        };
        print_item(rt, item, 0, 0, 100)?;
    }
    Ok(())
}

pub(crate) fn print_sizes(rt: &impl Print) -> io::Result<()> {
    for (span, size, room) in [
        (0u8, 0u8, 100usize),
        (1, 0, 0),
        (1, 1, 100),
        (3, 64, 100),
        (3, 65, 100),
        (3, 33, 36),
        (3, 33, 35),
        (3, 33, 100),
    ] {
        print_item(rt, Item { span, size, ..DATA }, 0, 0, room)?;
    }
    Ok(())
}

pub(crate) fn print_places(rt: &impl Print) -> io::Result<()> {
    for (at, index, kind, span, size) in [
        (123usize, 123usize, 0x21u8, 3u8, 64u8),
        (124, 124, 0x21, 3, 64),
        (125, 125, 0x21, 1, 0),
        (125, 125, 0x01, 1, 0),
        (125, 126, 0x01, 1, 0),
    ] {
        let item = Item {
            over: kind,
            kind,
            span,
            size,
        };
        print_item(rt, item, at, index, 100)?;
    }
    Ok(())
}

pub(crate) fn print_blank(rt: &impl Print) -> io::Result<()> {
    println!(rt; "all 0xff, 4,096 bytes, then 4,095")?;
    let blank = [0xFFu8; 4096];
    print_reads(rt, &blank, 0, 100)?;
    print_reads(rt, &blank, 126, 100)?;
    print_reads(rt, &blank[..4095], 126, 100)
}
