// The check of a feeder's records.
#![tactic(auto)]

pub mod check;
