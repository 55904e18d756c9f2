// The radiality of a state.
#![tactic(auto)]

pub mod radiality;
