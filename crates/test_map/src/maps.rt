// The entry map: the state of an entry at each value of its byte, and statistics.
ghost use Rattle.std.specs.Prelude.{◌<◌};

use sector::{EntryMapState, Statistics};
use std::io;
use test_print::Numbered;

// Whether an entry has these bits, in a map that is all 0xFF but for the entry's byte.
fn has_bits(index: usize, byte: u8, bits: u8) -> bool
    requires { index < 126 }
{
    let mut map = [0xFFu8; 32];
    map[index / 4] = byte;
    sector_map::get_entry_state(map, index).is_ok_and(|state| sector_map::bits_of(state) == bits)
}

// At how many values of its byte an entry has these bits.
fn count_bits(index: usize, bits: u8) -> usize
    requires { index < 126 }
{
    (0..=255u8)
        .filter(|&byte| has_bits(index, byte, bits))
        .count()
}

fn print_counts(rt: &impl Print) -> io::Result<()> {
    for index in [0usize, 1, 2, 3, 125] {
        let empty = count_bits(index, 0b11);
        let written = count_bits(index, 0b10);
        let erased = count_bits(index, 0b00);
        let illegal = count_bits(index, 0b01);
        println!(rt;
            "states over all bytes, entry {index}: empty {empty}, written {written}, erased {erased}, illegal {illegal}"
        )?;
    }
    Ok(())
}

fn print_states(rt: &impl Print) -> io::Result<()> {
    for (byte, at) in [
        (0x0Fu8, 125usize),
        (0x0F, 126),
        (0x0F, 127),
        (0xFF, 126),
        (0xFF, 128),
    ] {
        let given = sector_map::get_entry_state([byte; 32], at);
        let bits = given.map_or(0, sector_map::bits_of);
        let answer = Numbered(given);
        println!(rt; "state, map of {byte:#04x}, entry {at}: answer {answer}, bits {bits}")?;
    }
    Ok(())
}

fn print_found(rt: &impl Print, found: Statistics) -> io::Result<()> {
    let Statistics {
        empty,
        written,
        erased,
        illegal,
    } = found;
    println!(rt; ": empty {empty}, written {written}, erased {erased}, illegal {illegal}")
}

fn print_statistics(rt: &impl Print) -> io::Result<()> {
    for (byte, last) in [
        (0xFFu8, 0xFFu8),
        (0xAA, 0xAA),
        (0x00, 0x00),
        (0x55, 0x55),
        (0xE4, 0xE4),
        (0xFF, 0x0F),
        (0xFF, 0xAF),
        (0xFF, 0x5F),
        (0xAA, 0x0A),
        (0xAA, 0xFA),
    ] {
        let mut map = [byte; 32];
        map[31] = last;
        print!(rt; "statistics, map {byte:#04x}, last byte {last:#04x}")?;
        print_found(rt, sector_map::get_entry_statistics(map))?;
    }
    Ok(())
}

// One Written entry among Empty ones: the entries at the borders of the words that are counted.
fn print_alone(rt: &impl Print) -> io::Result<()> {
    for index in [0usize, 31, 32, 63, 64, 95, 96, 125] {
        let map = sector_map::mark_range([0xFF; 32], EntryMapState::Written, index, 1);
        print!(rt; "statistics, entry {index} alone Written")?;
        print_found(rt, sector_map::get_entry_statistics(map))?;
    }
    Ok(())
}

pub(crate) fn print_all(rt: &impl Print) -> io::Result<()> {
    print_counts(rt)?;
    print_states(rt)?;
    print_statistics(rt)?;
    print_alone(rt)
}
