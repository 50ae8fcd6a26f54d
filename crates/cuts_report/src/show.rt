// Standard output: the lines of a run.
ghost use Rattle.std.specs.Prelude.{◌≤◌};

use cuts_append::{Append, Found, Sector};
use sector::Refusal;
use std::{fmt, io};

// A number, with a comma after the thousands.
#[derive(Clone, Copy)]
pub(crate) struct Grouped(pub(crate) usize);

impl fmt::Display for Grouped {
    fn fmt<W: fmt::Write>(&self, f: &mut fmt::Formatter<W>) -> fmt::Result {
        if self.0 < 1000 {
            return write!(f, "{}", self.0);
        }
        write!(f, "{},{:03}", self.0 / 1000, self.0 % 1000)
    }
}

// A refusal's number and name, and when it comes: those that an append, or opening a sector, gives to a record that opening read.
#[derive(Clone, Copy)]
pub(crate) struct Reason(pub(crate) Refusal);

impl fmt::Display for Reason {
    fn fmt<W: fmt::Write>(&self, f: &mut fmt::Formatter<W>) -> fmt::Result {
        write!(f, "{}", self.0.number())?;
        f.write_str(match self.0 {
            Refusal::WrongState => " WrongState: the page is not Active",
            Refusal::BadRequest => {
                " BadRequest: the type is none that an append takes, or the item has data and is in namespace 0"
            }
            Refusal::ValueTooLong => " ValueTooLong: the item takes more than 126 entries",
            Refusal::PageFull => " PageFull: the item takes more entries than are free",
            Refusal::CorruptedData => " CorruptedData: the header is not that of an open page",
            _ => "",
        })
    }
}

fn found(rt: &impl Print, name: &[u8], what: Found) -> io::Result<()> {
    let rest = match what {
        Found::Absent => "absent",
        Found::Whole => "there, whole",
        Found::Otherwise => return println!(rt; ": found otherwise"),
    };
    print!(rt; ": opens, the ")?;
    rt.write_all(name)?;
    println!(rt; " is {rest}")
}

fn range(rt: &impl Print, name: &[u8], first: usize, last: usize, what: Found) -> io::Result<()> {
    print!(rt; "cut after {}", Grouped(first))?;
    if first != last {
        print!(rt; " to {}", Grouped(last))?;
    }
    print!(rt; " units")?;
    found(rt, name, what)
}

// A line for each run of cuts that are found alike; how many were found otherwise.
fn ranges(
    rt: &impl Print,
    name: &[u8],
    append: &Append,
    after: &Sector,
    units: usize,
) -> io::Result<usize>
    requires { units ≤ 1100 }
{
    let mut otherwise = 0;
    let mut n = 0;
    while n <= units {
        let last = append.last_alike(after, n, units);
        let what = append.found_after(after, n);
        range(rt, name, n, last, what)?;
        if what == Found::Otherwise {
            otherwise += last - n + 1;
        }
        n = last + 1;
    }
    Ok(otherwise)
}

// All the cuts of an append, or why it is refused.
pub(crate) fn cuts(rt: &impl Print, name: &[u8], append: &Append) -> io::Result<()> {
    let after = match append.finish() {
        Ok(after) => after,
        Err(refusal) => return println!(rt; ": the append is refused, {}", Reason(refusal)),
    };
    let units = append.count_units();
    println!(rt; ": {} units", Grouped(units))?;
    let otherwise = ranges(rt, name, append, &after, units)?;
    println!(rt; "{} cuts found otherwise", Grouped(otherwise))
}
