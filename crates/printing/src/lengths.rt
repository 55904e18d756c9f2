// The bytes of each frame's line, its line feed included, and the bytes that are room for all of them (specs/Lengths).
use network::topology::PowerNetwork;

pub const ANSWER_LENGTH: usize = 59;

pub const FORM_LENGTH: usize = 11;

pub const OPERATION_LENGTH: usize = 9;

pub const DROPPED_LENGTH: usize = 9;

// A pair without its ids.
pub const PAIR_HEAD_LENGTH: usize = 7;

// Each id of a pair.
pub const ID_LENGTH: usize = 4;

pub const REFUSAL_LENGTH: usize = 9;

// The two lines on the best state.
pub const RESULT_LENGTH: usize = ANSWER_LENGTH + FORM_LENGTH;

// An operation for each switch.
pub const OPERATIONS_LENGTH: usize = PowerNetwork::MAX_SWITCHES * OPERATION_LENGTH;

// A pair for each bus but one, and each switch in one pair.
pub const PLAN_LENGTH: usize = (PowerNetwork::MAX_BUSES - 1) * PAIR_HEAD_LENGTH
    + PowerNetwork::MAX_SWITCHES * ID_LENGTH;

// The longest answer to a text.
pub const MAX_LENGTH: usize = RESULT_LENGTH + OPERATIONS_LENGTH + PLAN_LENGTH;
