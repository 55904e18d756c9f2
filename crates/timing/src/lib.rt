// Repeated calls for tests/benchmark. The rounds run here, so that a call on records is measured without the reading of their text.
#![tactic(auto)]

pub mod rounds;
pub mod search_rounds;
mod values;
