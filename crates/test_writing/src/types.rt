// An item of every type byte, its CRC made over that byte and over 0xFF, through each call that asks whether it loads.
use crate::copies::Source;
use crate::cuts;
use sector::{ENTRY_SIZE, ITEMS_OFFSET, MAP_OFFSET, Refusal, bytes};
use std::io;
use test_print::{Numbered, not_unless};
use test_writing_cases::records;
use test_writing_cases::records::{Sector, Stage};

// What the calls make of an item.
#[derive(Clone, Copy)]
struct Trial {
    load: Result<[u8; 32], Refusal>,
    data: Result<usize, Refusal>,
    copy: Result<(), Refusal>,
    kept: bool,
    erased: bool,
    purged: bool,
}

// A page whose first entry is Written: an item of span 1 in namespace 1. Its payload, where its type has one, is empty.
fn page_with(made: u8, kind: u8) -> Sector {
    let data = sector_item::sized_data(&[]);
    let mut entry = sector_item::item_bytes(1, made, 1, 255, [0x74; 16], data);
    entry[1] = kind;
    let mut sector = records::empty(Stage::Active);
    bytes::put(&mut sector.image, MAP_OFFSET, &[0xFE]);
    bytes::put(&mut sector.image, ITEMS_OFFSET, &entry);
    sector
}

fn copy_of(made: u8, kind: u8) -> Result<(), Refusal> {
    let source = Source {
        rest: 0xFF,
        place: 0,
        made,
        kind,
        span: 1,
    }
    .image();
    let mut sector = records::empty(Stage::Active);
    call_copy::copy_item_from(&mut sector.image, &mut sector.page, &source, 0, 9)
}

// Whether purging its namespace zeroes the entry, once it is Erased. Opening has marked it so where it kept no item.
fn is_purged(opened: &Sector) -> bool {
    let Sector {
        mut image,
        mut page,
    } = *opened;
    let _ = call_erase::erase_item(&mut image, &mut page, 0, 1);
    let _ = call_purge_namespace::purge_erased_for_namespace(&mut image, &page, 1);
    image[ITEMS_OFFSET..ITEMS_OFFSET + ENTRY_SIZE]
        .iter()
        .all(|&byte| byte == 0)
}

fn tried(made: u8, kind: u8) -> Trial {
    let mut sector = page_with(made, kind);
    let load = call_load::load_item(&sector.image, 0);
    let data = call_load_data::load_referenced_data_into(&sector.image, 0, &mut [0; 4]);
    let _ = cuts::open(&mut sector);
    Trial {
        load,
        data,
        copy: copy_of(made, kind),
        kept: sector.page.used == 1,
        erased: sector.page.erased == 1,
        purged: is_purged(&sector),
    }
}

// No call takes it for an item, and opening, which is done, marks the entry Erased.
fn is_no_item(trial: &Trial) -> bool {
    matches!(
        trial,
        Trial {
            load: Err(Refusal::KeyNotFound),
            data: Err(Refusal::KeyNotFound),
            copy: Err(Refusal::KeyNotFound),
            kept: false,
            erased: true,
            purged: false,
        }
    )
}

fn print_trial(rt: &impl Print, made: u8, kind: u8, trial: &Trial) -> io::Result<()> {
    println!(rt;
        "type {kind:#04x}, CRC over {made:#04x}: load answer {}, load data answer {}, copy answer {}, {}kept by opening, {}erased by it, {}purged",
        Numbered(trial.load),
        Numbered(trial.data),
        Numbered(trial.copy),
        not_unless(trial.kept),
        not_unless(trial.erased),
        not_unless(trial.purged)
    )
}

// How many of the type bytes are those of no item, with the CRC made over what the closure gives of each. Any other gets its line.
fn count_others<F: Fn(u8) -> u8>(rt: &impl Print, made_over: F) -> io::Result<usize>
    requires { F.IsAlwaysCallable made_over }
{
    let mut others: usize = 0;
    for kind in 0..=255u8 {
        let made = made_over(kind);
        let trial = tried(made, kind);
        if is_no_item(&trial) {
            others += 1;
        } else {
            print_trial(rt, made, kind, &trial)?;
        }
    }
    Ok(others)
}

pub(crate) fn print_all(rt: &impl Print) -> io::Result<()> {
    let itself = count_others(rt, |kind| kind)?;
    let any = count_others(rt, |_| 0xFF)?;
    println!(rt;
        "other type bytes, which no call takes for an item: {itself} with the CRC over the byte, {any} with the CRC over 0xff"
    )
}
