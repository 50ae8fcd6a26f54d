// Cuts an append after every number of units, opens the page each time, and prints what was found.
//
// With no argument it is the append of a 4,000-byte curve to a fresh page. The arguments IMAGE NAMESPACE TYPE KEY VALUE
// name a page in a file and an item.
#![tactic(auto)]

mod fresh;

use std::io;

fn main(rt: HostRuntime) -> io::Result<()> {
    if cuts_report::is_given(&rt, 1) {
        return cuts_report::print_arguments(&rt);
    }
    fresh::print_all(&rt)
}
