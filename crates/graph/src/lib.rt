// Feeders as graphs: their branches by their buses, flags of branches, and what the walks answer.
#![tactic(auto)]

pub mod flags;
pub mod form;
pub mod rows;
pub mod walks;
