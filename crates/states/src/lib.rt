// The states of a feeder's switches, and the branches that are live in them.
#![tactic(auto)]

pub mod configuration;
