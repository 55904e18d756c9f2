// A feeder as a graph of its buses, and the first test of every call.
#![tactic(auto)]

pub mod feeder;
pub mod supply;
