// CRC vectors: each line names some bytes, and has their CRC from 0 and from 0xFFFFFFFF.
//
// The file `stdout` holds the CRCs of the same bytes by zlib: a CRC that differs is a line that differs.
#![tactic(auto)]

ghost use Rattle.std.specs.Prelude.{◌≤◌, length};

use std::io;

// 4,000 bytes: the second byte of each number that follows 1 by `75 * x + 74` modulo 65,537.
fn sample() -> [u8; 4000] {
    let mut bytes = [0; 4000];
    let mut state: u32 = 1;
    for byte in &mut bytes {
        state = (75 * state + 74) % 65537;
        *byte = (state / 256 % 256) as u8;
    }
    bytes
}

fn print_crcs(rt: &impl Print, bytes: &[u8]) -> io::Result<()> {
    let from_zero = crc::crc32(0, bytes);
    let from_ones = crc::crc32(0xFFFFFFFF, bytes);
    println!(rt; ": {from_zero:08x} {from_ones:08x}")
}

fn print_first(rt: &impl Print, bytes: &[u8], count: usize) -> io::Result<()>
    requires { count ≤ length bytes.now }
{
    print!(rt; "{count} bytes")?;
    print_crcs(rt, &bytes[..count])
}

fn print_short(rt: &impl Print, bytes: &[u8]) -> io::Result<()>
    requires { 40 ≤ length bytes.now }
{
    for count in 0..=40 {
        print_first(rt, bytes, count)?;
    }
    Ok(())
}

fn main(rt: HostRuntime) -> io::Result<()> {
    let digits = b"123456789";
    rt.write_all(digits)?;
    print_crcs(&rt, digits)?;
    let bytes = sample();
    print_short(&rt, &bytes)?;
    print_first(&rt, &bytes, 4000)
}
