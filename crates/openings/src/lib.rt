// The branch that is opened once another one is closed.
#![tactic(auto)]

pub mod opening;
