// By how much a stated time may be wrong at a tolerance.
use crate::answer::Answer;
use interval::allowance::allowance;
use std::io;

pub(crate) fn run(rt: &HostRuntime) -> io::Result<()> {
    for (time, tolerance) in [(401, 10_000), (1_000_000_000, 20_000), (400, 100_001)] {
        let allowed = Answer::from(allowance(time, tolerance));
        println!(rt; "allowance of {time} ms at {tolerance} ppm: {allowed}")?;
    }
    Ok(())
}
