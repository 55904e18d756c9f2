// The frames that are printed, written into lent slices.
#![tactic(auto)]

pub mod lengths;
pub mod writer;
