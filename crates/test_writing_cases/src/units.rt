// The units of a call: it is stopped at every n, until it is not.
use crate::lines;
use crate::records::Sector;
use page::ThinPage;
use sector::Refusal;
use std::io;

// More units than any call has.
const MOST: usize = 1100;

fn count<F: Fn(&mut [u8], &mut ThinPage, usize) -> Result<(), Refusal>>(
    call: F,
    sector: &Sector,
) -> usize
    requires { F.IsAlwaysCallable call }
{
    (0..MOST)
        .find(|&n| {
            let mut tried = *sector;
            let answer = call(&mut tried.image, &mut tried.page, n);
            !matches!(answer, Err(Refusal::Stopped))
        })
        .unwrap_or(MOST)
}

// The page that a call is tried on, its units, and what it leaves.
pub fn print<F: Fn(&mut [u8], &mut ThinPage, usize) -> Result<(), Refusal>>(
    rt: &impl Print,
    call: F,
    sector: Sector,
    at: usize,
) -> io::Result<()>
    requires { F.IsAlwaysCallable call }
{
    let units = count(&call, &sector);
    lines::print_page(rt, &sector)?;
    print!(rt; ", units {units}")?;
    let mut left = sector;
    let answer = call(&mut left.image, &mut left.page, units);
    lines::print(rt, answer, &left, at)
}
