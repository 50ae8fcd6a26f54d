// What the writing calls are tried with: pages, items, the units of a call, and what a line says of a page. And the trials of
// initialise, mark full and the appends, in document 01's order.
//
// A line a case, named by its numbers. Answers are 01's numbers. A call's units are found by stopping it at every n, until it
// is not stopped.
#![tactic(auto)]

pub mod appends;
mod headers;
pub mod items;
pub mod lines;
pub mod records;
pub mod units;

use std::io;

pub fn print_all(rt: &impl Print) -> io::Result<()> {
    headers::print_all(rt)?;
    appends::print_all(rt)
}
