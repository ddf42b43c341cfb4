// Intervals of time in whole milliseconds, the allowance of a time at a tolerance, and the meeting of intervals.
#![tactic(auto)]

pub mod allowance;
pub mod fault;
pub mod interval;
pub mod meeting;
#[cfg(test)]
mod tests;
pub mod told;
pub mod top;
pub mod worked;
