// A change from a present state of a feeder's switches to a wanted one, judged.
#![tactic(auto)]

pub mod change;
