// A plan that was cut off: its single moves, and those that finish it or go back.
#![tactic(auto)]

mod moves;
pub mod resume;
