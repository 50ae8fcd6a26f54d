// Type bytes: what each of the 256 becomes, and a primitive's width.
use sector::Refusal;
use std::io;
use test_print::Numbered;

fn print_type(rt: &impl Print, byte: u8) -> io::Result<()> {
    let became = sector_types::type_byte(byte);
    let given = sector_types::get_primitive_bytes_width(byte);
    let width = given.unwrap_or(0);
    let answer = Numbered(given);
    println!(rt; "type byte {byte:#04x} becomes {became:#04x}, width {width}: answer {answer}")
}

// Whether a byte becomes 0xFF, and its width is a mismatch that carries 0xFF.
fn is_any(byte: u8) -> bool {
    let width = sector_types::get_primitive_bytes_width(byte);
    sector_types::type_byte(byte) == 0xFF && matches!(width, Err(Refusal::ItemTypeMismatch(0xFF)))
}

pub(crate) fn print_all(rt: &impl Print) -> io::Result<()> {
    for byte in [
        0x01u8, 0x11, 0x02, 0x12, 0x04, 0x14, 0x08, 0x18, 0x21, 0x41, 0x42, 0x48, 0xFF,
    ] {
        print_type(rt, byte)?;
    }
    // 0xFF is one of the thirteen.
    let others = (0x00..0xFFu8).filter(|&byte| is_any(byte)).count();
    println!(rt; "other type bytes that become 0xff, width answer 8 0xff: {others}")
}
