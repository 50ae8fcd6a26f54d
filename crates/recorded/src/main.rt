// Replays the recorded answers of the Rust through the functions that C calls by `boundary_c`, and prints how many cases agree.
//
// The file comes on standard input; `compare/RECORDED.md` has its format, and how it is made.
#![tactic(auto)]

mod replay;
mod show;
mod tally;

use recorded_file::error::ReplayError;
use recorded_file::head;
use replay::Replay;
use std::io;

fn main(rt: HostRuntime) -> io::Result<()> {
    let mut file = rt.reader();
    let cases = match head::read(&mut file)? {
        Ok(cases) => cases,
        Err(error) => return println!(rt; "{error}"),
    };
    let mut replay = Replay::new(cases);
    match replay.run(&mut file) {
        Err(ReplayError::Io(error)) => Err(error),
        outcome => show::report(&rt, &replay, outcome),
    }
}
