// Four clocks that timed the same outage, the last of them far off: their meetings, and what two of them share.
use crate::answer::Answer;
use interval::fault::RuleFault;
use interval::interval::Interval;
use interval::meeting::meeting;
use interval::top::Top;
use std::io;

pub(crate) fn run(rt: &HostRuntime) -> io::Result<()> {
    match stated() {
        Ok(clocks) => report(rt, &clocks),
        Err(fault) => {
            let refused = Answer::refused(fault);
            println!(rt; "clocks: {refused}")
        }
    }
}

// What the clocks state, in milliseconds; clock 2 stopped at its greatest reading.
fn stated() -> Result<[Interval; 4], RuleFault> {
    Ok([
        Interval::new(380, Top::Closed(420))?,
        Interval::new(400, Top::Closed(460))?,
        Interval::new(390, Top::Open)?,
        Interval::new(900, Top::Closed(950))?,
    ])
}

fn report(rt: &HostRuntime, clocks: &[Interval; 4]) -> io::Result<()> {
    for (i, clock) in clocks.iter().enumerate() {
        let shown = Answer::from(*clock);
        println!(rt; "clock {i}: {shown}")?;
    }
    let backwards = Answer::from(Interval::new(7, Top::Closed(6)));
    println!(rt; "a clock that states 7 to 6: {backwards}")?;
    for quorum in [3, 2, 4, 5] {
        let met = Answer::from(meeting(clocks, quorum));
        println!(rt; "meeting at {quorum}: {met}")?;
    }
    for (one, other) in [(1, 2), (0, 3)] {
        let shared = Answer::from(clocks[one].shared(&clocks[other]));
        println!(rt; "clocks {one} and {other} share: {shared}")?;
    }
    Ok(())
}
