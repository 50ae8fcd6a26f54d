// Whether a record is fit to use, at both sides of each clause.
use page::{Listed, ThinPage};
use sector::PageState;
use std::io;
use test_print::not_unless;

// A record of an Active page on which nothing stands.
fn active() -> ThinPage {
    ThinPage {
        state: PageState::Active,
        sequence: 1,
        version: 0xFE,
        crc: 1,
        ..ThinPage::uninitialized()
    }
}

// A map that is blank but for its first byte.
fn map_from(first: u8) -> [u8; 32] {
    let mut map = [0xFFu8; 32];
    map[0] = first;
    map
}

fn print_counted(rt: &impl Print) -> io::Result<()> {
    for (first, used, erased, len) in [
        (0xFFu8, 100u8, 26u8, 0u8),
        (0xFF, 100, 27, 0),
        (0xFF, 255, 255, 0),
        (0xFF, 2, 1, 3),
        (0xFF, 2, 1, 4),
        (0xFF, 126, 0, 126),
        (0xEA, 3, 0, 0),
        (0xEA, 2, 1, 0),
    ] {
        let map = map_from(first);
        let page = ThinPage {
            map,
            used,
            erased,
            len,
            ..active()
        };
        let not = not_unless(page.fit_to_use());
        println!(rt;
            "record, first map byte {first:#04x}, used {used}, erased {erased}, list {len}: {not}fit"
        )?;
    }
    Ok(())
}

fn print_places(rt: &impl Print) -> io::Result<()> {
    for (at, hash, index) in [
        (0usize, 0u32, 125u8),
        (0, 0, 126),
        (0, 0xFFFFFF, 0),
        (0, 0x1000000, 0),
        (1, 1, 0),
        (125, 0, 1),
    ] {
        let mut list = [Listed::none(); 126];
        list[at] = Listed { hash, index };
        let page = ThinPage {
            used: 1,
            len: 1,
            list,
            ..active()
        };
        let not = not_unless(page.fit_to_use());
        println!(rt; "record, list 1, place {at} of hash {hash} and index {index}: {not}fit")?;
    }
    Ok(())
}

fn print_blanks(rt: &impl Print) -> io::Result<()> {
    for (first, sequence, version, crc, used, erased) in [
        (0xFFu8, 0u32, 0u8, 0u32, 0u8, 0u8),
        (0xFF, 1, 0, 0, 0, 0),
        (0xFF, 0, 0xFE, 0, 0, 0),
        (0xFF, 0, 0, 1, 0, 0),
        (0xFF, 0, 0, 0, 1, 0),
        (0xFF, 0, 0, 0, 0, 1),
        (0xFC, 0, 0, 0, 0, 0),
    ] {
        let map = map_from(first);
        let page = ThinPage {
            sequence,
            version,
            crc,
            map,
            used,
            erased,
            ..ThinPage::uninitialized()
        };
        let not = not_unless(page.fit_to_use());
        println!(rt;
            "record, Uninitialized, first map byte {first:#04x}, sequence {sequence}, version {version:#04x}, header CRC {crc}, used {used}, erased {erased}: {not}fit"
        )?;
    }
    Ok(())
}

pub(crate) fn print_all(rt: &impl Print) -> io::Result<()> {
    print_counted(rt)?;
    print_places(rt)?;
    print_blanks(rt)
}
