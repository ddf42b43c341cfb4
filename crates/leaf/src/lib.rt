// The single gauges: the remanence tier, which reads a drained capacitor, and the counter.
#![tactic(auto)]

pub mod breakpoint;
mod cell;
pub mod counter;
mod curve;
mod reading;
#[cfg(test)]
mod tests;
pub mod tier;
pub mod worked;
