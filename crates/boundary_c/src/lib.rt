#![tactic(auto)]
// The C functions of the page calls, for a static library: `boundary/nvs_page.h` is the header for C.
//
// Each is the function of its name in the crate `boundary`, with its clauses. A crate is a library or a static library, not both.
mod reading;
mod sums;
mod writing;
