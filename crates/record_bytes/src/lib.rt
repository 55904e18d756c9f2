// Records in bytes, and their frame text.
#![tactic(auto)]

pub mod records;
