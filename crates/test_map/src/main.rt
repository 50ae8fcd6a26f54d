// What the calls over a map and a record give at both sides of each edge, in document 01's order: a line an edge, with its numbers.
//
// Answers are 01's numbers.
#![tactic(auto)]

mod fitness;
mod hash_bound;
mod maps;

use std::io;

fn main(rt: HostRuntime) -> io::Result<()> {
    maps::print_all(&rt)?;
    fitness::print_all(&rt)?;
    hash_bound::print_all(&rt)
}
