// The branches of a graph drawn away from a bus.
#![tactic(auto)]

pub mod drawing;
