// The path that the walk finds between two buses.
#![tactic(auto)]

pub mod path;
