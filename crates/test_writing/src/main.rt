// What the calls give at both sides of each edge, in document 01's order; then items of every type byte; then calls that are cut
// short, and the page opened.
#![tactic(auto)]

mod copies;
mod cuts;
mod erases;
mod purges;
mod types;

use std::io;

fn main(rt: HostRuntime) -> io::Result<()> {
    test_writing_cases::print_all(&rt)?;
    copies::print_all(&rt)?;
    erases::print_all(&rt)?;
    purges::print_all(&rt)?;
    types::print_all(&rt)?;
    cuts::print_all(&rt)
}
