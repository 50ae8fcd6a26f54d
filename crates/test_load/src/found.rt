// The next kept item, from each entry of a page on, and past its end.
use crate::images::{FILLED, Item};
use opening_found::KeptItem;
use sector::{ENTRY_SIZE, ITEMS_OFFSET, MAP_OFFSET, bytes, layout};
use std::io;

// Entry 0 is a single. Entry 1 begins a payload item of span 3 whose payload CRC is wrong; entry 2, which it covers, has the bytes
// of a single. Entry 4 begins a payload item of span 2 that is whole. All six are Written; the tail is free.
fn page() -> [u8; 4096] {
    let single = Item {
        over: 0x01,
        kind: 0x01,
        span: 1,
        size: 0,
    };
    let refused = Item {
        over: 0x21,
        kind: 0x21,
        span: 3,
        size: 64,
    };
    let payload = [FILLED; 32];
    let data = sector_item::sized_data(&payload);
    let whole = sector_item::item_bytes(1, 0x21, 2, 255, [0x6B; 16], data);
    let mut image = [0xFFu8; 4096];
    bytes::put(&mut image, MAP_OFFSET, &[0xAA, 0xFA]);
    bytes::put(&mut image, ITEMS_OFFSET, &single.header());
    bytes::put(&mut image, ITEMS_OFFSET + ENTRY_SIZE, &refused.header());
    bytes::put(&mut image, ITEMS_OFFSET + ENTRY_SIZE * 2, &single.header());
    bytes::put(&mut image, ITEMS_OFFSET + ENTRY_SIZE * 4, &whole);
    bytes::put(&mut image, ITEMS_OFFSET + ENTRY_SIZE * 5, &payload);
    image
}

pub(crate) fn print_all(rt: &impl Print) -> io::Result<()> {
    let image = page();
    let map = layout::map_of(&image);
    for from in [0, 1, 2, 3, 4, 5, 6, 125, 126, usize::MAX] {
        match opening_found::next_kept(&image, map, from) {
            Some(KeptItem { index, span }) => {
                println!(rt; "next kept from {from}: index {index}, span {span}")?
            }
            None => println!(rt; "next kept from {from}: none")?,
        }
    }
    Ok(())
}
