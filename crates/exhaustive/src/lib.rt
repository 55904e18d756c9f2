// Document 01's exhaustive search.
#![tactic(auto)]

pub mod exhaustive;
