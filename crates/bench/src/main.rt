// Runs the bench cases and prints what the library answers to each.
#![tactic(auto)]

mod allowances;
mod answer;
mod clocks;
// Two tiers and a counter: proved, and not among the cases yet.
mod gauges;
mod row;
mod worked;

use std::io;

fn main(rt: HostRuntime) -> io::Result<()> {
    clocks::run(&rt)?;
    allowances::run(&rt)?;
    worked::run(&rt)
}
