// The records of a feeder, their limits and lookups.
#![tactic(auto)]

pub mod branch;
pub mod bus;
pub mod error;
pub mod switch;
pub mod topology;
