// The breadth-first walk over a graph, and radiality by it.
#![tactic(auto)]

pub mod radial;
pub mod walk;
