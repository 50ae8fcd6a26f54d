// The program `cuts` with arguments, 32 bytes at next free 15; and what it says of words that are wrong, of files that are no sector, and of pages
// that refuse: a line each.
#![tactic(auto)]

use cuts_report::{Words, print_words};
use std::io;
use std::rt::Files;

// A curve of 32 bytes on a page with 15 entries.
const CURVE: Words = Words {
    image: b"page.bin",
    namespace: b"1",
    kind: b"BlobData",
    key: b"curve",
    value: b"curve.bin",
};

// A single entry on that page.
const UNIT: Words = Words {
    image: b"page.bin",
    namespace: b"1",
    kind: b"U32",
    key: b"unit",
    value: b"0xDEADBEEF",
};

// The curve in a namespace.
fn in_namespace<R: Files + Print>(rt: &R, namespace: &[u8]) -> io::Result<()> {
    print_words(rt, Words { namespace, ..CURVE })
}

// A single entry of another type and value.
fn single<'a, R: Files + Print>(rt: &R, kind: &'a [u8], value: &'a [u8]) -> io::Result<()> {
    print_words(
        rt,
        Words {
            kind,
            value,
            ..UNIT
        },
    )
}

// The single entry on another page.
fn on_page<R: Files + Print>(rt: &R, image: &[u8]) -> io::Result<()> {
    print_words(rt, Words { image, ..UNIT })
}

// Data out of a file.
fn data<'a, R: Files + Print>(rt: &R, namespace: &'a [u8], path: &'a [u8]) -> io::Result<()> {
    print_words(
        rt,
        Words {
            namespace,
            kind: b"0x41",
            value: path,
            ..CURVE
        },
    )
}

fn words<R: Files + Print>(rt: &R) -> io::Result<()> {
    in_namespace(rt, b"300")?;
    in_namespace(rt, b"")?;
    print_words(
        rt,
        Words {
            kind: b"U8",
            key: b"sixteen_bytes_on",
            value: b"1",
            ..UNIT
        },
    )?;
    single(rt, b"Curve", b"1")?;
    single(rt, b"U8", b"256")
}

fn files<R: Files + Print>(rt: &R) -> io::Result<()> {
    on_page(rt, b"missing.bin")?;
    on_page(rt, b".")?;
    on_page(rt, b"short.bin")?;
    on_page(rt, b"long.bin")?;
    data(rt, b"1", b"missing.bin")?;
    data(rt, b"1", b".")
}

// Each refusal of document 01 that an opening or an append can give to words that are right.
fn refusals<R: Files + Print>(rt: &R) -> io::Result<()> {
    on_page(rt, b"damaged.bin")?;
    on_page(rt, b"blank.bin")?;
    on_page(rt, b"full.bin")?;
    single(rt, b"0x05", b"1")?;
    data(rt, b"0", b"curve.bin")?;
    data(rt, b"1", b"curve4001.bin")?;
    print_words(
        rt,
        Words {
            image: b"crowded.bin",
            kind: b"Blob",
            ..CURVE
        },
    )
}

fn main(rt: HostRuntime) -> io::Result<()> {
    cuts_report::print_arguments(&rt)?;
    words(&rt)?;
    files(&rt)?;
    refusals(&rt)?;
    on_page(&rt, b"crowded.bin")
}
