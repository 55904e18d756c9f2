// The lines of a text: their characters, the numbers that they write, and refusals 1 and 2.
#![tactic(auto)]

pub mod hex;
pub mod line;
