// Document 01's branch exchange.
#![tactic(auto)]

pub mod exchange;
