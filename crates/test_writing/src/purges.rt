// Purge: the bytes that become zero in an erased image; and by namespace, which items still load.
use call_append::Variable;
use std::io;
use test_print::Numbered;
use test_writing_cases::items::{DATA, SINGLE};
use test_writing_cases::records;
use test_writing_cases::records::{Sector, Stage};

fn print_purges(rt: &impl Print) -> io::Result<()> {
    for (index, span) in [(125usize, 9usize), (126, 9), (0, 0), (0, 2), (0, 127)] {
        let mut image = [0xFFu8; 4096];
        let answer = Numbered(call_purge::purge_entries(&mut image, index, span));
        let zeros = image.iter().filter(|&&byte| byte == 0).count();
        println!(rt; "purge, index {index}, span {span}: answer {answer}, bytes {zeros}")?;
    }
    Ok(())
}

// Entries 0 and 4 in namespace 1, entries 1 to 3 one item of namespace 2.
fn three_items() -> Sector {
    let data = Variable {
        namespace: 2,
        ..DATA
    };
    let Sector {
        mut image,
        mut page,
    } = records::empty(Stage::Active);
    let _ = call_append::write_item(&mut image, &mut page, SINGLE, 9);
    let _ = call_append_variable::write_variable_sized_item(
        &mut image,
        &mut page,
        data,
        &[0x42; 33],
        18,
    );
    let _ = call_append::write_item(&mut image, &mut page, SINGLE, 9);
    Sector { image, page }
}

// After an erase of this many entries from 0 on, and from 1 on: 0 is none.
fn print_by_namespace(rt: &impl Print) -> io::Result<()> {
    for (first, second, namespace) in [(0usize, 0usize, 1u8), (1, 3, 1), (1, 3, 2), (1, 3, 3)] {
        let Sector {
            mut image,
            mut page,
        } = three_items();
        let _ = call_erase::erase_item(&mut image, &mut page, 0, first);
        let _ = call_erase::erase_item(&mut image, &mut page, 1, second);
        let answer = call_purge_namespace::purge_erased_for_namespace(&mut image, &page, namespace);
        println!(rt;
            "purge by namespace, erased at 0 {first}, at 1 {second}, namespace {namespace}: answer {}, entry 0 loads {}, entry 1 loads {}, entry 4 loads {}",
            Numbered(answer),
            Numbered(call_load::load_item(&image, 0)),
            Numbered(call_load::load_item(&image, 1)),
            Numbered(call_load::load_item(&image, 4))
        )?;
    }
    Ok(())
}

pub(crate) fn print_all(rt: &impl Print) -> io::Result<()> {
    print_purges(rt)?;
    print_by_namespace(rt)
}
