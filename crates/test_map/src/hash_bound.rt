// The hash bound, over pages of a few items.
use std::io;

fn entry(namespace: u8, span: u8) -> [u8; 32] {
    let mut bytes = [0x77u8; 32];
    bytes[0] = namespace;
    bytes[2] = span;
    bytes
}

// A namespace, an item of span 1, one of span 3, an Erased one, then span 0, a span off the page, span 1.
fn bound_of_nine() -> usize {
    let mut map = [0xFFu8; 32];
    map[0] = 0xAA;
    map[1] = 0xA2;
    map[2] = 0xFE;
    let mut entries = [entry(2, 1); 126];
    entries[0] = entry(0, 1);
    entries[1] = entry(1, 1);
    entries[2] = entry(1, 3);
    entries[6] = entry(2, 0);
    entries[7] = entry(2, 255);
    call_hash_bound::hashed_item_bound(map, entries)
}

// A page whose map is one byte but for the last, and whose entries are in one namespace and of one span but for the last.
#[derive(Clone, Copy)]
struct Alike {
    byte: u8,
    end: u8,
    namespace: u8,
    span: u8,
    last: u8,
}

const EMPTY: Alike = Alike {
    byte: 0xFF,
    end: 0xFF,
    namespace: 1,
    span: 1,
    last: 1,
};

const WRITTEN: Alike = Alike {
    byte: 0xAA,
    end: 0xAA,
    ..EMPTY
};

fn bound_of(page: Alike) -> usize {
    let mut map = [page.byte; 32];
    map[31] = page.end;
    let mut entries = [entry(page.namespace, page.span); 126];
    entries[125] = entry(page.namespace, page.last);
    call_hash_bound::hashed_item_bound(map, entries)
}

fn print_bounds(rt: &impl Print, pages: &[Alike]) -> io::Result<()> {
    for page in pages {
        let Alike {
            byte,
            end,
            namespace,
            span,
            last,
        } = *page;
        let bound = bound_of(*page);
        println!(rt;
            "hash bound, map {byte:#04x}, last byte {end:#04x}, namespace {namespace}, span {span}, at 125 span {last}: {bound}"
        )?;
    }
    Ok(())
}

pub(crate) fn print_all(rt: &impl Print) -> io::Result<()> {
    print_bounds(
        rt,
        &[
            EMPTY,
            WRITTEN,
            Alike {
                namespace: 0,
                ..WRITTEN
            },
            Alike {
                span: 126,
                last: 126,
                ..WRITTEN
            },
            Alike {
                span: 127,
                last: 127,
                ..WRITTEN
            },
        ],
    )?;
    println!(rt; "hash bound, nine entries: {}", bound_of_nine())?;
    print_bounds(
        rt,
        &[
            Alike {
                end: 0xFA,
                span: 2,
                ..EMPTY
            },
            Alike {
                end: 0xFA,
                span: 3,
                ..EMPTY
            },
        ],
    )
}
