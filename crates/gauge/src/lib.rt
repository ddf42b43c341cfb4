// What a gauge is and what every gauge owes: the trait, its meaning, its faults and the path that a fault carries.
#![tactic(auto)]

pub mod fault;
pub mod gauge;
pub mod path;
#[cfg(test)]
mod tests;
