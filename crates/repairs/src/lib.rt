// The repair of stored texts.
#![tactic(auto)]

pub mod repair;
