// Items to read, whose entry the calls of `sector` make, each alone on a page.
ghost use Rattle.std.specs.Prelude.{◌<◌};

use sector::{ENTRY_SIZE, ITEMS_OFFSET, bytes};

// What lies in every byte of a page but those of its item's header.
pub(crate) const FILLED: u8 = 0x77;

// An item in namespace 1. The CRC of its header is made over a type byte of its own; its payload's is 0, and so wrong: load and load
// data check only the header's.
#[derive(Clone, Copy)]
pub(crate) struct Item {
    pub(crate) over: u8,
    pub(crate) kind: u8,
    pub(crate) span: u8,
    pub(crate) size: u8,
}

impl Item {
    pub(crate) fn header(&self) -> [u8; 32] {
        let data = [self.size, 0, 0xFF, 0xFF, 0, 0, 0, 0];
        let mut entry = sector_item::item_bytes(1, self.over, self.span, 255, [0x6B; 16], data);
        entry[1] = self.kind;
        entry
    }

    pub(crate) fn page(&self, at: usize) -> [u8; 4096]
        requires { at < 126 }
    {
        let mut image = [FILLED; 4096];
        bytes::put(&mut image, ITEMS_OFFSET + ENTRY_SIZE * at, &self.header());
        image
    }
}
