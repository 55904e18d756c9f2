// The calls on a frame text. A refusal of the text comes first, then those of the call itself. Beside each call stands what it asks for, as a
// Result that hands refusals on by `?`; the call makes numbers of it.
ghost use Rattle.std.specs.Prelude.{◌≡◌};
ghost use Rattle.network.specs.Answers.{accepted, answer_of, valued};
ghost use Rattle.network.specs.Check.{check_records};
ghost use Rattle.network.specs.Records.{records_of};
ghost use Rattle.frames.specs.Text.{read_text};
ghost use Rattle.feeders.specs.Feeder.{form_in};
ghost use Rattle.feeders.specs.StateCalls.{on_state};
ghost use Rattle.searches.specs.Results.{result_of};
ghost use Rattle.answers.specs.Printing.{answered_text};
ghost use Rattle.repairs.specs.Repairs.{repaired_text};
ghost use Rattle.record_bytes.specs.RecordBytes.{written_records};
ghost use Rattle.controller.specs.Calls.{numbers_of, on_records, text_radiality, text_form, text_loss, text_plan, text_resume, text_operations, text_solved, base_call, text_base, written_numbers, written_numbers_in_two, written_solved};

use crate::answer::{CallAnswer, SolvedAnswer, form_number, in_numbers, radial_byte};
use answers::printer::answer_text;
use frames::reader::read_text;
use graph::form::Form;
use losses::evaluation::evaluate_config;
use network::error::Refusal;
use network::topology::PowerNetwork;
use operations::operations::compute_switch_operations;
use plan::planner::plan;
use radiality::radiality::verify_radiality;
use reconfiguration::solve::solve;
use record_bytes::records::write_records;
use repairs::repair::repair_text;
use resumption::resume::resume;
use searches::answer::ReconfigResult;
use slices::writer::write_bytes;
use states::configuration::build_base_configuration;

fn form_of(text: &[u8], state: &[u8]) -> Result<Form, Refusal>
    ensures { answer_of result ≡ on_records (read_text text.now) (λ N. on_state N state.now (form_in N state.now)) }
{
    let network = read_text(text)?;
    verify_radiality(network, state)
}

fn radiality_of(text: &[u8], state: &[u8]) -> Result<u64, Refusal>
    ensures { answer_of result ≡ text_radiality text.now state.now }
{
    let form = form_of(text, state)?;
    Ok(u64::from(radial_byte(form)))
}

// Whether a state is radial: the value is 1 where it is, else 0.
pub fn feeder_radiality(text: &[u8], state: &[u8]) -> CallAnswer
    ensures { result ≡ numbers_of (text_radiality text.now state.now) }
{
    in_numbers(radiality_of(text, state))
}

fn form_number_of(text: &[u8], state: &[u8]) -> Result<u64, Refusal>
    ensures { answer_of result ≡ text_form text.now state.now }
{
    let form = form_of(text, state)?;
    Ok(form_number(form))
}

// What the live branches of a state are: the value is islands × 65,536 + the first branch that closes a loop, 65,535 where there is no loop.
pub fn feeder_form(text: &[u8], state: &[u8]) -> CallAnswer
    ensures { result ≡ numbers_of (text_form text.now state.now) }
{
    in_numbers(form_number_of(text, state))
}

// No NaN has bits of its own, and no loss is a NaN.
fn loss_of(text: &[u8], state: &[u8]) -> Result<u64, Refusal>
    ensures { answer_of result ≡ text_loss text.now state.now }
{
    let network = read_text(text)?;
    let loss = evaluate_config(network, state)?;
    Ok(f64::to_bits(loss))
}

// The loss of a state, which must be radial only where the text names a supply: the value is the bits of the f64, in MW.
pub fn feeder_loss(text: &[u8], state: &[u8]) -> CallAnswer
    ensures { result ≡ numbers_of (text_loss text.now state.now) }
{
    in_numbers(loss_of(text, state))
}

fn plan_of(text: &[u8], present: &[u8], wanted: &[u8], out: &mut [u8]) -> Result<u16, Refusal>
    ensures { record { answer = answer_of result; out = out.new }
        ≡ text_plan text.now present.now wanted.now out.old }
{
    let network = read_text(text)?;
    plan(network, present, wanted, out)
}

// The plan from the present state to the wanted one: the value is the number of pairs, and an 86 line for each stands at the front of the slice,
// which keeps what is behind them. A refusal writes nothing.
pub fn feeder_plan(text: &[u8], present: &[u8], wanted: &[u8], out: &mut [u8]) -> CallAnswer
    ensures { record { answer = result; out = out.new }
        ≡ written_numbers (text_plan text.now present.now wanted.now out.old) }
{
    in_numbers(plan_of(text, present, wanted, out))
}

fn moves_left_of(
    text: &[u8],
    present: &[u8],
    wanted: &[u8],
    count: u64,
    remaining: &mut [u8],
    back: &mut [u8],
) -> Result<u16, Refusal>
    ensures { record { answer = answer_of result; first = remaining.new; second = back.new }
        ≡ text_resume text.now present.now wanted.now count remaining.old back.old }
{
    let network = read_text(text)?;
    resume(network, present, wanted, count, remaining, back)
}

// The plan from the present state, in which it began, to the wanted one, with so many of its single moves done: the value is the number of moves that
// remain, and an 82 line for each stands at the front of the first slice; the moves that go back from there stand so at the front of the second, one for each
// move done. Each slice keeps what is behind its lines. A refusal writes nothing.
pub fn feeder_resume(
    text: &[u8],
    present: &[u8],
    wanted: &[u8],
    count: u64,
    remaining: &mut [u8],
    back: &mut [u8],
) -> CallAnswer
    ensures { record { answer = result; first = remaining.new; second = back.new }
        ≡ written_numbers_in_two (text_resume text.now present.now wanted.now count remaining.old back.old) }
{
    in_numbers(moves_left_of(text, present, wanted, count, remaining, back))
}

// The lines that the program `feeder` prints for the text: the value is how many bytes, and they stand at the front of the slice, which keeps what is behind
// them. A refusal, the text's own or 13, writes nothing: the 8F line is the caller's to make.
pub fn feeder_answer_text(text: &[u8], out: &mut [u8]) -> CallAnswer
    ensures { record { answer = result; out = out.new } ≡ written_numbers (answered_text text.now out.old) }
{
    in_numbers(answer_text(text, out))
}

// The base's bytes at the front of the slice, or 13. A checked network has no more switches than a state has bytes.
fn write_base(network: PowerNetwork, out: &mut [u8]) -> Result<u16, Refusal>
    requires { check_records (records_of network) ≡ accepted tt }
    ensures { record { answer = answer_of result; out = out.new } ≡ base_call (records_of network) out.old }
{
    let count = network.switch_count;
    let n = usize::from(count);
    if out.len() < n {
        return Err(Refusal::Room);
    }
    let base = build_base_configuration(network).switches;
    write_bytes(out, &base[..n]);
    Ok(count)
}

fn base_of(text: &[u8], out: &mut [u8]) -> Result<u16, Refusal>
    ensures { record { answer = answer_of result; out = out.new } ≡ text_base text.now out.old }
{
    let network = read_text(text)?;
    write_base(network, out)
}

// The base of the text's feeder: the value is the number of switches, and a byte for each stands at the front of the slice, which keeps what is
// behind them. A refusal writes nothing.
pub fn feeder_base_state(text: &[u8], out: &mut [u8]) -> CallAnswer
    ensures { record { answer = result; out = out.new } ≡ written_numbers (text_base text.now out.old) }
{
    in_numbers(base_of(text, out))
}

fn solution_of(text: &[u8], out: &mut [u8]) -> Result<ReconfigResult, Refusal>
    ensures { record { answer = valued result_of (answer_of result); out = out.new } ≡ text_solved text.now out.old }
{
    let network = read_text(text)?;
    solve(network, out)
}

// The search that the text asks for: the best state's bytes stand at the front of the slice, which keeps what is behind them, and the answer has
// the values of the 81 line. A refusal writes nothing.
pub fn feeder_solve(text: &[u8], out: &mut [u8]) -> SolvedAnswer
    ensures { record { answer = result; out = out.new } ≡ written_solved (text_solved text.now out.old) }
{
    in_numbers(solution_of(text, out))
}

fn operations_of(text: &[u8], from: &[u8], to: &[u8], out: &mut [u8]) -> Result<u16, Refusal>
    ensures { record { answer = answer_of result; out = out.new }
        ≡ text_operations text.now from.now to.now out.old }
{
    let network = read_text(text)?;
    compute_switch_operations(network, from, to, out)
}

// The operations that lead from one state to another, in switch order and not in the order in which switches may move (that is the plan's): the
// value is their number, and an 82 line for each stands at the front of the slice, which keeps what is behind them. A refusal writes nothing.
pub fn feeder_operations(text: &[u8], from: &[u8], to: &[u8], out: &mut [u8]) -> CallAnswer
    ensures { record { answer = result; out = out.new }
        ≡ written_numbers (text_operations text.now from.now to.now out.old) }
{
    in_numbers(operations_of(text, from, to, out))
}

// The frame text of records in bytes: the value is how many bytes the text has, and they stand at the front of the slice, which keeps what is behind them. A
// refusal, that of the text's line or 13, writes nothing.
pub fn feeder_write_text(records: &[u8], out: &mut [u8]) -> CallAnswer
    ensures { record { answer = result; out = out.new } ≡ written_numbers (written_records records.now out.old) }
{
    in_numbers(write_records(records, out))
}

// The repair of a stored text: the value is how many bytes, and they stand at the front of the slice, which keeps what is behind them: the text without its
// branches from a bus to itself, then an 87 line for each line that was dropped. A refusal, the stored text's or 13, writes nothing.
pub fn feeder_repair_text(text: &[u8], out: &mut [u8]) -> CallAnswer
    ensures { record { answer = result; out = out.new } ≡ written_numbers (repaired_text text.now out.old) }
{
    in_numbers(repair_text(text, out))
}
