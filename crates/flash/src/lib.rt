// Programming a sector in four-byte units: old AND new, a padded tail, and a stop after n units (raw.rs `write_aligned`).
#![tactic(auto)]

ghost use Rattle.std.specs.Prelude.{◌≡◌, ◌+◌, ◌-◌, ◌≤◌, length, take};
ghost use Rattle.flash.specs.Flash.{all_ones, program, units, run};

const WRITE_SIZE: usize = 4;

// Whether every byte is 0xFF, as in erased flash; true of no bytes at all.
//
// It looks at all of them: `all`, which stops at the first other byte, goes one byte at a time, and takes 24 times as long
// for 4,096.
#[tactic(auto, using(crate::proofs::Laws::all_ones_fold))]
pub fn all_ones(bytes: &[u8]) -> bool
    ensures { result ≡ all_ones bytes.now }
{
    bytes.iter().fold(0xFF, |ones, byte| ones & *byte) == 0xFF
}

// How many units a write of these bytes has: one for every four, and one for a tail that is not all 0xFF.
#[tactic(auto, using(crate::proofs::Laws::length_units_tail))]
pub fn unit_count(bytes: &[u8]) -> usize
    ensures { result ≡ length (units 0 bytes.now) }
{
    let (whole, tail) = bytes.as_chunks::<WRITE_SIZE>();
    if all_ones(tail) {
        return whole.len();
    }
    whole.len() + 1
}

// Each byte from the address on becomes old AND new.
#[tactic(auto, using(crate::proofs::Laws::program_next, crate::proofs::Laws::program_end))]
fn program_bytes(image: &mut [u8], address: usize, bytes: &[u8])
    requires { address + length bytes.now ≤ length image.old }
    ensures { image.new ≡ program image.old address bytes.now }
{
    for (i, byte) in bytes.iter().enumerate() {
        image[address + i] &= *byte;
    }
}

// Programs the bytes at an address (`write_aligned`), at most a budget of their units, and returns how many units they
// have in all: a budget below that is a stop.
//
// The Rust pads the tail with 0xFF, and does not write it if it is all 0xFF. Both leave what is there, so here the units
// within the budget are one run over their bytes, and no padding is made.
#[tactic(auto, using(crate::proofs::Laws::run_within, crate::proofs::Laws::length_units))]
pub fn write_aligned(image: &mut [u8], address: usize, bytes: &[u8], budget: usize) -> usize
    requires { address + length bytes.now ≤ length image.old }
    ensures total { result ≡ length (units address bytes.now) }
    ensures image { image.new ≡ run (take budget (units address bytes.now)) image.old }
{
    // Four times the budget may not fit.
    let end = bytes.len().min(WRITE_SIZE.saturating_mul(budget));
    program_bytes(image, address, &bytes[..end]);
    unit_count(bytes)
}
