// The operations that lead from one state of the switches to another, as a list.
#![tactic(auto)]

pub mod operations;
