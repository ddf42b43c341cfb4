// The worked examples that are proved in the library, as its functions answer them.
use crate::answer::Answer;
use interval::worked::{worked_allowance, worked_meeting};
use std::io;

pub(crate) fn run(rt: &HostRuntime) -> io::Result<()> {
    let met = Answer::from(worked_meeting());
    println!(rt; "meeting of [0, 10], [10, 20] and [0, 20] at 2: {met}")?;
    let allowed = Answer::from(worked_allowance());
    println!(rt; "allowance of 400 ms at 100 ppm: {allowed}")
}
