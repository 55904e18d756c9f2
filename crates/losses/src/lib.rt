// The loss of a state.
#![tactic(auto)]

pub mod estimate;
pub mod evaluation;
pub mod loads;
