// Refusals of one record.
#![tactic(auto)]

pub mod record;
