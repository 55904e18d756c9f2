// Repeated writing of a text for tests/benchmark.
#![tactic(auto)]

pub mod text_rounds;
