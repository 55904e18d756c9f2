// The answer to a text, as it is printed.
#![tactic(auto)]

pub mod printer;
