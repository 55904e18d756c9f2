// A feeder without its branches from a bus to itself.
#![tactic(auto)]

pub mod dropping;
