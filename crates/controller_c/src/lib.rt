// The calls of the crate controller for C and Rust, under the same names and with the same clauses: a static library, over which no Rattle crate can stand.
// include/feeder.h declares them.
#![tactic(auto)]

ghost use Rattle.std.specs.Prelude.{◌≡◌};
ghost use Rattle.answers.specs.Printing.{answered_text};
ghost use Rattle.repairs.specs.Repairs.{repaired_text};
ghost use Rattle.record_bytes.specs.RecordBytes.{written_records};
ghost use Rattle.controller.specs.Calls.{numbers_of, text_radiality, text_form, text_loss, text_plan, text_resume, text_operations, text_solved, text_base, written_numbers, written_numbers_in_two, written_solved};

use controller::answer::{CallAnswer, SolvedAnswer};
use controller::calls;

// Whether a state is radial: the value is 1 where it is, else 0.
#[unsafe(no_mangle)]
pub extern "C" fn feeder_radiality(text: &[u8], state: &[u8]) -> CallAnswer
    ensures { result ≡ numbers_of (text_radiality text.now state.now) }
{
    calls::feeder_radiality(text, state)
}

// What the live branches of a state are: the value is islands × 65,536 + the first branch that closes a loop, 65,535 where there is no loop.
#[unsafe(no_mangle)]
pub extern "C" fn feeder_form(text: &[u8], state: &[u8]) -> CallAnswer
    ensures { result ≡ numbers_of (text_form text.now state.now) }
{
    calls::feeder_form(text, state)
}

// The loss of a state, which must be radial only where the text names a supply: the value is the bits of the f64, in MW.
#[unsafe(no_mangle)]
pub extern "C" fn feeder_loss(text: &[u8], state: &[u8]) -> CallAnswer
    ensures { result ≡ numbers_of (text_loss text.now state.now) }
{
    calls::feeder_loss(text, state)
}

// The plan from the present state to the wanted one: the value is the number of pairs, and an 86 line for each stands at the front of the slice,
// which keeps what is behind them. A refusal writes nothing.
#[unsafe(no_mangle)]
pub extern "C" fn feeder_plan(
    text: &[u8],
    present: &[u8],
    wanted: &[u8],
    out: &mut [u8],
) -> CallAnswer
    ensures { record { answer = result; out = out.new }
        ≡ written_numbers (text_plan text.now present.now wanted.now out.old) }
{
    calls::feeder_plan(text, present, wanted, out)
}

// The plan from the present state, in which it began, to the wanted one, with so many of its single moves done: the value is the number of moves that
// remain, and an 82 line for each stands at the front of the first slice; the moves that go back from there stand so at the front of the second, one for each
// move done. Each slice keeps what is behind its lines. A refusal writes nothing.
#[unsafe(no_mangle)]
pub extern "C" fn feeder_resume(
    text: &[u8],
    present: &[u8],
    wanted: &[u8],
    count: u64,
    remaining: &mut [u8],
    back: &mut [u8],
) -> CallAnswer
    ensures { record { answer = result; first = remaining.new; second = back.new }
        ≡ written_numbers_in_two (text_resume text.now present.now wanted.now count remaining.old back.old) }
{
    calls::feeder_resume(text, present, wanted, count, remaining, back)
}

// The lines that the program `feeder` prints for the text: the value is how many bytes, and they stand at the front of the slice, which keeps what is behind
// them. A refusal, the text's own or 13, writes nothing: the 8F line is the caller's to make.
#[unsafe(no_mangle)]
pub extern "C" fn feeder_answer_text(text: &[u8], out: &mut [u8]) -> CallAnswer
    ensures { record { answer = result; out = out.new } ≡ written_numbers (answered_text text.now out.old) }
{
    calls::feeder_answer_text(text, out)
}

// The base of the text's feeder: the value is the number of switches, and a byte for each stands at the front of the slice, which keeps what is
// behind them. A refusal writes nothing.
#[unsafe(no_mangle)]
pub extern "C" fn feeder_base_state(text: &[u8], out: &mut [u8]) -> CallAnswer
    ensures { record { answer = result; out = out.new } ≡ written_numbers (text_base text.now out.old) }
{
    calls::feeder_base_state(text, out)
}

// The search that the text asks for: the best state's bytes stand at the front of the slice, which keeps what is behind them, and the answer has
// the values of the 81 line. A refusal writes nothing.
#[unsafe(no_mangle)]
pub extern "C" fn feeder_solve(text: &[u8], out: &mut [u8]) -> SolvedAnswer
    ensures { record { answer = result; out = out.new } ≡ written_solved (text_solved text.now out.old) }
{
    calls::feeder_solve(text, out)
}

// The operations that lead from one state to another, in switch order and not in the order in which switches may move (that is the plan's): the
// value is their number, and an 82 line for each stands at the front of the slice, which keeps what is behind them. A refusal writes nothing.
#[unsafe(no_mangle)]
pub extern "C" fn feeder_operations(
    text: &[u8],
    from: &[u8],
    to: &[u8],
    out: &mut [u8],
) -> CallAnswer
    ensures { record { answer = result; out = out.new }
        ≡ written_numbers (text_operations text.now from.now to.now out.old) }
{
    calls::feeder_operations(text, from, to, out)
}

// The frame text of records in bytes: the value is how many bytes the text has, and they stand at the front of the slice, which keeps what is behind them. A
// refusal, that of the text's line or 13, writes nothing.
#[unsafe(no_mangle)]
pub extern "C" fn feeder_write_text(records: &[u8], out: &mut [u8]) -> CallAnswer
    ensures { record { answer = result; out = out.new } ≡ written_numbers (written_records records.now out.old) }
{
    calls::feeder_write_text(records, out)
}

// The repair of a stored text: the value is how many bytes, and they stand at the front of the slice, which keeps what is behind them: the text without its
// branches from a bus to itself, then an 87 line for each line that was dropped. A refusal, the stored text's or 13, writes nothing.
#[unsafe(no_mangle)]
pub extern "C" fn feeder_repair_text(text: &[u8], out: &mut [u8]) -> CallAnswer
    ensures { record { answer = result; out = out.new } ≡ written_numbers (repaired_text text.now out.old) }
{
    calls::feeder_repair_text(text, out)
}
