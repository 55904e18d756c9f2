// The search that a feeder asks for.
#![tactic(auto)]

pub mod solve;
