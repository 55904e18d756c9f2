// The neighbours of a feeder's buses in lists, and the walk by them.
#![tactic(auto)]

pub mod lists;
