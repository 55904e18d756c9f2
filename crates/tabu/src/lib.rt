// Document 01's tabu search.
#![tactic(auto)]

pub mod tabu;
mod tabu_list;
