// Ids looked up in rows.
#![tactic(auto)]

pub mod rows;
