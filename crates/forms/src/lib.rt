// What the live branches of a feeder are: a tree, or what instead.
#![tactic(auto)]

pub mod form;
