// The reader of the frame text.
#![tactic(auto)]

mod pass;
pub mod reader;
mod supply;
