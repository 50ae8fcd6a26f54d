// What the calls that read bytes give at both sides of each edge, by numbers: a line for an item, and one for what its reading gives.
// Then the kept items of a page, one after the other.
//
// Answers are 01's numbers; the type byte that a mismatch carries stands after its 8.
#![tactic(auto)]

mod found;
mod images;
mod payloads;
mod type_bytes;

use std::io;

fn main(rt: HostRuntime) -> io::Result<()> {
    type_bytes::print_all(&rt)?;
    payloads::print_types(&rt)?;
    payloads::print_sizes(&rt)?;
    payloads::print_places(&rt)?;
    payloads::print_blank(&rt)?;
    found::print_all(&rt)
}
