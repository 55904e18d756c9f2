// The frame text of a network.
#![tactic(auto)]

mod line;
pub mod writer;
