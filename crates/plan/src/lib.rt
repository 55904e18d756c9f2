// The switching plan from one state of a feeder's switches to another.
#![tactic(auto)]

pub mod list;
pub mod pairs;
pub mod planner;
