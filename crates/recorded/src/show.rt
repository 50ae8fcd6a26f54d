// Standard output: the lines of a replay.
use crate::replay::Replay;
use recorded_calls::call::Call;
use recorded_file::error::ReplayError;
use std::io;

pub(crate) fn report(
    rt: &impl Print,
    replay: &Replay,
    outcome: Result<(), ReplayError>,
) -> io::Result<()> {
    let tally = &replay.tally;
    println!(rt; "{} of {} cases agree", tally.agreed, replay.cases)?;
    if let Some(first) = tally.first {
        println!(rt;
            "the first that does not is case {}, of call {}",
            first.case, first.call as u8
        )?;
    }
    // Nothing where the file was replayed to its end, and has the cases that its head says.
    if let Err(error) = outcome {
        println!(rt; "the replay stops after {} cases: {error}", tally.compared)?;
    }
    for call in Call::ALL {
        println!(rt; "{call:<20}{}", tally.agreed_of(call))?;
    }
    Ok(())
}
