// The calls for controllers and rollout tools: texts and states are byte slices, answers are numbers. The crate controller_c exports them for C and Rust, and
// include/feeder.h declares them.
#![tactic(auto)]

pub mod answer;
pub mod calls;
