// What the three searches share: where they start from, and how they answer.
#![tactic(auto)]

pub mod answer;
pub mod start;
