// One line of a frame text and the record that it makes.
#![tactic(auto)]

pub mod branch;
pub mod bus;
mod field;
pub mod head;
pub mod record;
pub mod supply;
pub mod switch;
