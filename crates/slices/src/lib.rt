// Bytes, and numbers in digits, written into lent slices.
#![tactic(auto)]

pub mod writer;
