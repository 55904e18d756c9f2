// The frames that are printed, written at the front of a lent slice. What stands behind them stays, and a slice too short stays as it is. A frame of at
// most 16 digits is written as one number.
// `SwitchAction` and `SwitchOperation` are translated and changed from src/network/reconfiguration.rs of oxigrid. Copyright 2024-2026 COOLJAPAN OU (Team Kitasan), Apache License 2.0.
ghost use Rattle.std.specs.Prelude.{◌≡◌, [], ◌∷◌, ◌++◌, ◌≤◌, length};
ghost use Rattle.lines.specs.Hex.{digits};
ghost use Rattle.slices.specs.Written.{written, last_digits};
ghost use Rattle.printing.specs.Printed.{truth_byte, action_byte, answer_text, form_text, operation_text, ids_text, pair_text, refusal_text, reason_byte, dropped_text};
ghost use Rattle.printing.specs.Stored.{ids_in, no_ids};
ghost use Rattle.printing.specs.Lengths.{longest_pair};

use crate::lengths::{ANSWER_LENGTH, ID_LENGTH, PAIR_HEAD_LENGTH};
use graph::form::{Form, fields_of};
use network::topology::PowerNetwork;
use slices::writer::{write_digits, write_line};

// What is done to a switch.
#[derive(Clone, Copy, Debug, PartialEq, Eq)]
pub enum SwitchAction {
    Open,
    Close,
}

// What is done, as the frame 82 says it: a state's byte says how a switch stands, and that is the other way round.
impl From<SwitchAction> for u8 {
    ghost from_gives = { λ action r. r ≡ action_byte action };

    fn from(action: SwitchAction) -> u8 {
        match action {
            SwitchAction::Open => 0,
            SwitchAction::Close => 1,
        }
    }
}

// A switch by its id, and what is done to it.
#[derive(Clone, Copy, Debug, PartialEq, Eq)]
pub struct SwitchOperation {
    pub switch_id: u16,
    pub action: SwitchAction,
}

// Why a repair dropped a line: it was a branch from a bus to itself, or a switch on one.
#[derive(Clone, Copy, Debug, PartialEq, Eq)]
pub enum DropReason {
    Branch,
    Switch,
}

// The reason as the frame 87 says it.
impl From<DropReason> for u8 {
    ghost from_gives = { λ reason r. r ≡ reason_byte reason };

    fn from(reason: DropReason) -> u8 {
        match reason {
            DropReason::Branch => 1,
            DropReason::Switch => 2,
        }
    }
}

// The ids of switches of one branch that a pair moves, in list order: the first `count` of them, both where it is larger. A count beside an array: there is no
// heap, and a pair's ids are at most two.
#[derive(Clone, Copy)]
pub struct SwitchIds {
    pub count: u8,
    pub ids: [u16; PowerNetwork::MAX_SWITCHES_ON_BRANCH],
}

impl SwitchIds {
    // None yet.
    pub fn new() -> SwitchIds
        ensures { result ≡ no_ids }
    {
        SwitchIds {
            count: 0,
            ids: [0; PowerNetwork::MAX_SWITCHES_ON_BRANCH],
        }
    }
}

// Ids in a line: how many digits they have with their count before them, and the number that these write.
#[derive(Clone, Copy)]
struct IdDigits {
    width: u8,
    number: u64,
}

// The byte of a field that says whether it is so: by its name, since the answers that C gets are promised with it too.
pub fn truth_byte(b: bool) -> u8
    ensures { result ≡ truth_byte b }
{
    u8::from(b)
}

// The base loss, the best one and the reduction of a search's answer.
fn write_losses(out: &mut [u8], base: u64, best: u64, reduction: u64)
    requires { 48 ≤ length out.old }
    ensures { out.new ≡ written (digits 16 base ++ (digits 16 best ++ digits 16 reduction)) out.old }
{
    write_digits(out, 16, base);
    write_digits(&mut out[16..], 16, best);
    write_digits(&mut out[32..], 16, reduction);
}

// The frame 81: a search's answer, by its fields in their order. The losses and the reduction in percent are the bits of an f64.
pub fn write_answer(
    out: &mut [u8],
    radial: bool,
    base: u64,
    best: u64,
    reduction: u64,
    iterations: u16,
    converged: bool,
)
    ensures { out.new ≡ written (answer_text radial base best reduction iterations converged) out.old }
{
    if out.len() < ANSWER_LENGTH {
        return;
    }
    let head = 0x8100 + truth_byte(radial) as u64;
    let last_fields = 0x100 * iterations as u64 + truth_byte(converged) as u64;
    write_digits(out, 4, head);
    write_losses(&mut out[4..], base, best, reduction);
    write_line(&mut out[52..], 6, last_fields);
}

// The frame 84: the islands and the first closing branch of a state, FFFF where it has no loop.
pub fn write_form(out: &mut [u8], form: Form)
    ensures { out.new ≡ written (form_text form) out.old }
{
    let fields = fields_of(form);
    let number = 0x1_0000 * fields.islands as u64 + fields.branch as u64;
    write_line(out, 10, 0x84_0000_0000 + number);
}

// The frame 82: a switch, and what is done to it.
pub fn write_operation(out: &mut [u8], operation: SwitchOperation)
    ensures { out.new ≡ written (operation_text operation) out.old }
{
    let action = u8::from(operation.action);
    let fields = 0x100 * operation.switch_id as u64 + action as u64;
    write_line(out, 8, 0x8200_0000 + fields);
}

fn one_id(id: u16) -> IdDigits
    ensures { last_digits result.width result.number ≡ ids_text (id ∷ []) }
{
    IdDigits {
        width: 6,
        number: 0x1_0000 + id as u64,
    }
}

fn two_ids(first: u16, second: u16) -> IdDigits
    ensures { last_digits result.width result.number ≡ ids_text (first ∷ second ∷ []) }
{
    let ids = 0x1_0000 * first as u64 + second as u64;
    IdDigits {
        width: 10,
        number: 0x2_0000_0000 + ids,
    }
}

fn id_digits(switches: SwitchIds) -> IdDigits
    ensures { last_digits result.width result.number ≡ ids_text (ids_in switches) }
{
    match switches.count {
        0 => IdDigits {
            width: 2,
            number: 0,
        },
        1 => one_id(switches.ids[0]),
        _ => two_ids(switches.ids[0], switches.ids[1]),
    }
}

// How many bytes the line of a pair has. The bound stands beside the equation for the callers: they add lengths up, and the ids that the text has are not bounded by its words.
pub fn pair_length(closes: SwitchIds, opens: SwitchIds) -> usize
    ensures { (result ≡ length (pair_text (ids_in closes) (ids_in opens))) × (result ≤ longest_pair) }
{
    let closed = usize::from(closes.count).min(PowerNetwork::MAX_SWITCHES_ON_BRANCH);
    let opened = usize::from(opens.count).min(PowerNetwork::MAX_SWITCHES_ON_BRANCH);
    PAIR_HEAD_LENGTH + ID_LENGTH * (closed + opened)
}

// The frame 86: a pair of a plan, by the ids of the switches that it closes and of those that it opens.
pub fn write_pair(out: &mut [u8], closes: SwitchIds, opens: SwitchIds)
    ensures { out.new ≡ written (pair_text (ids_in closes) (ids_in opens)) out.old }
{
    let closed = id_digits(closes);
    let opened = id_digits(opens);
    let width = usize::from(closed.width);
    if out.len() < 2 + width + usize::from(opened.width) + 1 {
        return;
    }
    write_digits(out, 2, 0x86);
    write_digits(&mut out[2..], width, closed.number);
    write_line(&mut out[2 + width..], opened.width, opened.number);
}

// The frame 8F: a refusal's number and place.
pub fn write_refusal(out: &mut [u8], number: u8, place: u16)
    ensures { out.new ≡ written (refusal_text number place) out.old }
{
    let fields = 0x1_0000 * number as u64 + place as u64;
    write_line(out, 8, 0x8F00_0000 + fields);
}

// The frame 87: a line that a repair dropped, by its old number, and why.
pub fn write_dropped(out: &mut [u8], line: u16, reason: DropReason)
    ensures { out.new ≡ written (dropped_text line (reason_byte reason)) out.old }
{
    let fields = 0x100 * line as u64 + u8::from(reason) as u64;
    write_line(out, 8, 0x8700_0000 + fields);
}
