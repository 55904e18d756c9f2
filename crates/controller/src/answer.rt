// What a call answers, in numbers alone.
ghost use Rattle.std.specs.Prelude.{◌≡◌, MatchResult};
ghost use Rattle.network.specs.Answers.{accepted, refused, number_of, place_of};
ghost use Rattle.graph.specs.Form.{form_number};
ghost use Rattle.searches.specs.Results.{result_of};
ghost use Rattle.controller.specs.Calls.{numbers_of, radial_byte, solved_numbers};

use graph::form::{Form, fields_of, is_tree};
use network::error::Refusal;
use searches::answer::ReconfigResult;

// Number 0 with what was asked for, or document 01's refusal number and place.
#[repr(C)]
#[derive(Clone, Copy, Debug, PartialEq, Eq)]
pub struct CallAnswer {
    pub number: u8,
    pub place: u16,
    pub value: u64,
}

// Number 0 with the values of the 81 line, or document 01's refusal number and place beside zeros.
#[repr(C)]
#[derive(Clone, Copy, Debug, PartialEq)]
pub struct SolvedAnswer {
    pub number: u8,
    pub place: u16,
    pub radial: u8,
    pub converged: u8,
    pub iterations: u16,
    pub base_loss: f64,
    pub best_loss: f64,
    pub reduction: f64,
}

impl From<u64> for CallAnswer {
    ghost from_gives = { λ value answer. answer ≡ numbers_of (accepted value) };

    fn from(value: u64) -> CallAnswer {
        CallAnswer {
            number: 0,
            place: 0,
            value,
        }
    }
}

// How many pairs, moves or bytes: those calls answer a u16.
impl From<u16> for CallAnswer {
    ghost from_gives = { λ count answer. answer ≡ numbers_of (accepted count) };

    fn from(count: u16) -> CallAnswer {
        CallAnswer::from(u64::from(count))
    }
}

impl From<Refusal> for CallAnswer {
    ghost from_gives = { λ refusal answer. answer ≡ numbers_of (refused (number_of refusal) (place_of refusal)) };

    fn from(refusal: Refusal) -> CallAnswer {
        CallAnswer {
            number: refusal.number(),
            place: refusal.place(),
            value: 0,
        }
    }
}

// 1 for a tree, 0 for anything else.
pub(crate) fn radial_byte(form: Form) -> u8
    ensures { result ≡ radial_byte form }
{
    u8::from(is_tree(form))
}

// Islands × 65,536 + branch.
pub fn form_number(form: Form) -> u64
    ensures { result ≡ form_number form }
{
    let fields = fields_of(form);
    0x1_0000 * u64::from(fields.islands) + u64::from(fields.branch)
}

impl From<ReconfigResult> for SolvedAnswer {
    ghost from_gives = { λ found answer. answer ≡ solved_numbers (accepted (result_of found)) };

    fn from(found: ReconfigResult) -> SolvedAnswer {
        SolvedAnswer {
            number: 0,
            place: 0,
            radial: radial_byte(found.form),
            converged: u8::from(found.converged),
            iterations: found.n_iterations,
            base_loss: found.base_losses_mw,
            best_loss: found.optimized_losses_mw,
            reduction: found.loss_reduction_pct,
        }
    }
}

impl From<Refusal> for SolvedAnswer {
    ghost from_gives = { λ refusal answer. answer ≡ solved_numbers (refused (number_of refusal) (place_of refusal)) };

    fn from(refusal: Refusal) -> SolvedAnswer {
        SolvedAnswer {
            number: refusal.number(),
            place: refusal.place(),
            radial: 0,
            converged: 0,
            iterations: 0,
            base_loss: 0.0,
            best_loss: 0.0,
            reduction: 0.0,
        }
    }
}

// What a call answered, in numbers: those of its value, or those of its refusal.
pub(crate) fn in_numbers<T: Into<A>, A: From<Refusal>>(answer: Result<T, Refusal>) -> A
    ensures { MatchResult answer (λ value. T.converts value result) (λ refusal. A.from_gives refusal result) }
{
    match answer {
        Ok(value) => value.into(),
        Err(refusal) => A::from(refusal),
    }
}
