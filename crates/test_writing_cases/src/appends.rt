// Append single and append variable.
ghost use Rattle.std.specs.Prelude.{◌≤◌};

use crate::items::{DATA, SINGLE};
use crate::records::Stage;
use crate::{records, units};
use call_append::{Single, Variable};
use page::ThinPage;
use sector::Refusal;
use std::io;
use test_print::Numbered;

// Over an image that is too short, with a record that is neither fit nor Active.
fn single_on_short(rt: &impl Print) -> io::Result<()> {
    let mut page = records::filled(Stage::Full, 126, 2).page;
    let mut short = [0xFFu8; 4095];
    let answer = call_append::write_item(&mut short, &mut page, SINGLE, 0);
    println!(rt;
        "single, type 0x01, 4,095 bytes, on state 0xfc, used 126, erased 2: answer {}",
        Numbered(answer)
    )
}

// Type and span; the page, its used and erased; a byte of the map to look at.
fn print_singles(rt: &impl Print) -> io::Result<()> {
    single_on_short(rt)?;
    for (kind, span, stage, used, erased, at) in [
        (0x01u8, 1usize, Stage::Full, 126u8, 2u8, 31usize),
        (0x21, 1, Stage::Full, 126, 0, 31),
        (0x01, 1, Stage::Active, 0, 0, 0),
        (0x01, 1, Stage::Active, 125, 0, 31),
        (0x01, 1, Stage::Active, 126, 0, 31),
        (0x01, 1, Stage::Full, 126, 0, 31),
        (0x21, 1, Stage::Active, 126, 0, 31),
        (0x48, 1, Stage::Active, 0, 0, 0),
        (0x01, 0, Stage::Active, 126, 0, 31),
        (0x01, 2, Stage::Active, 0, 0, 0),
    ] {
        let item = Single {
            kind,
            span,
            ..SINGLE
        };
        print!(rt; "single, type {kind:#04x}, span {span}")?;
        units::print(
            rt,
            |image, page, n| call_append::write_item(image, page, item, n),
            records::filled(stage, used, erased),
            at,
        )?;
    }
    Ok(())
}

// The entry that a call writes on an empty page, with a byte on either side.
pub fn print_entry<F: FnOnce(&mut [u8], &mut ThinPage) -> Result<(), Refusal>>(
    rt: &impl Print,
    name: &[u8],
    call: F,
) -> io::Result<()>
    requires { F.IsAlwaysCallable call }
{
    let mut sector = records::empty(Stage::Active);
    let _ = call(&mut sector.image, &mut sector.page);
    rt.write_all(name)?;
    print!(rt; ", bytes 63 to 96:")?;
    for byte in &sector.image[63..97] {
        print!(rt; " {byte:#04x}")?;
    }
    println!(rt)
}

fn print_entries(rt: &impl Print) -> io::Result<()> {
    let namespace = |image: &mut [u8], page: &mut ThinPage, n: usize| {
        call_append::write_namespace(image, page, [0x6E; 16], 7, n)
    };
    print!(rt; "namespace 7")?;
    units::print(rt, namespace, records::empty(Stage::Active), 0)?;
    print_entry(rt, b"single", |image, page| {
        call_append::write_item(image, page, SINGLE, 9)
    })?;
    print_entry(rt, b"namespace 7", |image, page| namespace(image, page, 9))
}

// Data of bytes 0x42 but for byte 32.
fn print_variable(
    rt: &impl Print,
    item: Variable,
    length: usize,
    byte: u8,
    used: u8,
    at: usize,
) -> io::Result<()>
    requires { length ≤ 4001 }
{
    let mut bytes = [0x42u8; 4001];
    bytes[32] = byte;
    let payload = &bytes[..length];
    let Variable {
        kind,
        namespace,
        ..
    } = item;
    print!(rt;
        "data, length {length}, byte 32 {byte:#04x}, type {kind:#04x}, namespace {namespace}"
    )?;
    units::print(
        rt,
        |image, page, n| call_append_variable::write_variable_sized_item(
            image, page, item, payload, n,
        ),
        records::filled(Stage::Active, used, 0),
        at,
    )
}

// On a page with nothing in it: the length, and byte 32; a byte of the map to look at.
fn print_lengths(rt: &impl Print) -> io::Result<()> {
    for (length, byte, at) in [
        (33usize, 0x42u8, 0usize),
        (33, 0xFF, 0),
        (0, 0x42, 0),
        (4000, 0x42, 31),
        (4001, 0x42, 31),
    ] {
        print_variable(rt, DATA, length, byte, 0, at)?;
    }
    Ok(())
}

// The length; used of the page; a byte of the map to look at.
fn print_room(rt: &impl Print) -> io::Result<()> {
    for (length, used, at) in [
        (4001usize, 126u8, 31usize),
        (4000, 126, 31),
        (1, 125, 31),
        (0, 125, 31),
        (1, 124, 31),
        (32, 15, 3),
    ] {
        print_variable(rt, DATA, length, 0x42, used, at)?;
    }
    Ok(())
}

// On a page with no free entry.
fn print_bad_requests(rt: &impl Print) -> io::Result<()> {
    for (length, kind, namespace) in [(4001usize, 0x01u8, 1u8), (0, 0x48, 1), (4001, 0x21, 0)] {
        let item = Variable {
            namespace,
            kind,
            ..DATA
        };
        print_variable(rt, item, length, 0x42, 126, 31)?;
    }
    Ok(())
}

pub(crate) fn print_all(rt: &impl Print) -> io::Result<()> {
    print_singles(rt)?;
    print_entries(rt)?;
    print_lengths(rt)?;
    print_room(rt)?;
    print_bad_requests(rt)
}
