// A plan that was cut off: the answer and both lent slices of each call that the cases on standard input ask for. A case is a line 'LENGTH NAME', a frame
// text, a line feed, and three lines: 'CHANGE PRESENT', WANTED and CALLS. An empty text stands for the feeder of the case before. CHANGE is A for 1,001
// iterations or F for a tie in place of the eleventh switch, which the records get once they are read, or a hyphen for none. PRESENT and WANTED
// have a digit for each byte of the states. CALLS has its numbers in hexadecimal digits, and is one of
//   O COUNT REMAINING BACK   one call, with a count of 16 digits and the lengths of the slices in 4 digits each
//   E MOVES                  every count from 0 to one above MOVES, each with slices as long as its lists
//   L MOVES                  the same for a long plan
// A case prints its name, and for each call a line 'COUNT ANSWER [REMAINING] [BACK]' with the slices as the call leaves them. In a long plan the two
// longest lists come first, by the calls at count 0 and at count MOVES; then a slice prints 'end' at every count where it is the end of the longest list
// of its kind, byte for byte, and itself where it is not.
#![tactic(auto)]

ghost use Rattle.std.specs.Prelude.{◌≡◌, ◌≤◌};

use cases::faults::with_fault;
use cases::unheeded::Unheeded;
use cases::{Cases, DOT, LentCase, State, filled};
use frames::reader::read_stored;
use input::read_available;
use lines::hex::number_at;
use network::error::Refusal;
use network::switch::ReconfigAlgorithm;
use network::topology::PowerNetwork;
use printing::lengths::OPERATION_LENGTH;
use resumption::resume::resume;
use std::io;
use std::marker::Model;

// A plan moves each of 512 switches at most once.
const MAX_MOVES: u64 = 512;

// More than a line for each of these moves, so that longer slices can be asked for.
const MAX_ROOM: usize = 4864;

// A lent slice: so many bytes at the front of its room.
#[derive(Drop)]
struct Lent {
    room: [u8; MAX_ROOM],
    length: usize,
}

impl Model for Lent {
    ghost use Rattle.std.specs.Prelude.{List, ℕ, ◌≤◌, take};

    ghost Value = { List ℕ };

    ghost view = { λ s. take s.length s.room };

    ghost invariant = { λ s. s.length ≤ 4864 };
}

impl Lent {
    // A dot for each byte, as far as there is room.
    fn dots(length: usize) -> Lent {
        Lent {
            room: filled::<MAX_ROOM>(DOT),
            length: length.min(MAX_ROOM),
        }
    }

    fn bytes(&self) -> &[u8]
        ensures { result.now ≡ self.now }
    {
        &self.room[..self.length]
    }

    fn bytes_mut(&mut self) -> &mut [u8] {
        &mut self.room[..self.length]
    }
}

// A call's count and answer, and the lent slices as it leaves them.
#[derive(Drop)]
struct Call {
    count: u64,
    answer: Result<u16, Refusal>,
    remaining: Lent,
    back: Lent,
}

// A plan that was cut off: its feeder, the state in which it began, and the wanted one.
#[derive(Clone, Copy)]
struct CutPlan<'a> {
    network: PowerNetwork,
    present: &'a [u8],
    wanted: &'a [u8],
}

impl<'a> CutPlan<'a> {
    // `left` and `gone` are the lengths of the slices for what remains and for what goes back.
    fn resumed(&self, count: u64, left: usize, gone: usize) -> Call {
        let mut remaining = Lent::dots(left);
        let mut back = Lent::dots(gone);
        let answer = resume(
            self.network,
            self.present,
            self.wanted,
            count,
            remaining.bytes_mut(),
            back.bytes_mut(),
        );
        Call {
            count,
            answer,
            remaining,
            back,
        }
    }

    // Slices as long as the lists of a plan with so many moves. One count above it nothing remains, and the other slice has room for a line more.
    fn resumed_at(&self, moves: u16, count: u16) -> Call {
        let left = OPERATION_LENGTH * usize::from(moves.saturating_sub(count));
        let gone = OPERATION_LENGTH * usize::from(count);
        self.resumed(u64::from(count), left, gone)
    }
}

fn print_answer(rt: &impl Print, call: &Call) -> io::Result<()> {
    let count = call.count;
    match call.answer {
        Ok(left) => print!(rt; "{count} {left}"),
        Err(refusal) => print!(rt; "{count} refused {refusal}"),
    }
}

// The slice stands between brackets, its line feeds as they are.
fn print_slice(rt: &impl Print, bytes: &[u8]) -> io::Result<()> {
    rt.print(" [")?;
    rt.write_all(bytes)?;
    rt.print("]")
}

fn print_call(rt: &impl Print, call: &Call) -> io::Result<()> {
    print_answer(rt, call)?;
    print_slice(rt, call.remaining.bytes())?;
    print_slice(rt, call.back.bytes())?;
    rt.println("")
}

fn print_end(rt: &impl Print, longest: &Lent, lent: &Lent) -> io::Result<()> {
    if longest.bytes().ends_with(lent.bytes()) {
        return rt.print(" end");
    }
    print_slice(rt, lent.bytes())
}

fn print_every_count(rt: &impl Print, plan: &CutPlan, moves: u16) -> io::Result<()>
    requires { moves ≤ 512 }
{
    for count in 0..=moves + 1 {
        print_call(rt, &plan.resumed_at(moves, count))?;
    }
    Ok(())
}

// The calls at count 0 and at the last count have the longest lists.
fn print_long_plan(rt: &impl Print, plan: &CutPlan, moves: u16) -> io::Result<()>
    requires { moves ≤ 512 }
{
    let first = plan.resumed_at(moves, 0);
    let last = plan.resumed_at(moves, moves);
    print_call(rt, &first)?;
    print_call(rt, &last)?;
    for count in 0..=moves + 1 {
        let call = plan.resumed_at(moves, count);
        print_answer(rt, &call)?;
        print_end(rt, &first.remaining, &call.remaining)?;
        print_end(rt, &last.back, &call.back)?;
        rt.println("")?;
    }
    Ok(())
}

// The length of a slice, from four digits.
fn room_at(line: &[u8], at: usize) -> usize
    ensures { result ≤ 4864 }
{
    (number_at(line, at, 4) as usize).min(MAX_ROOM)
}

fn print_calls(rt: &impl Print, plan: &CutPlan, calls: &[u8]) -> io::Result<()> {
    let [kind, ..] = calls else {
        return Ok(());
    };
    let number = number_at(calls, 2, 16);
    let moves = number.min(MAX_MOVES) as u16;
    match *kind {
        b'E' => print_every_count(rt, plan, moves),
        b'L' => print_long_plan(rt, plan, moves),
        _ => print_call(
            rt,
            &plan.resumed(number, room_at(calls, 19), room_at(calls, 24)),
        ),
    }
}

// The first line has the change and the present state.
fn print_case(rt: &impl Print, network: PowerNetwork, case: LentCase) -> io::Result<()> {
    let [change, _, digits @ ..] = case.line(0) else {
        return Ok(());
    };
    let present = State::of(digits);
    let wanted = State::of(case.line(1));
    let plan = CutPlan {
        network: with_fault(network, *change, 11),
        present: present.bytes(),
        wanted: wanted.bytes(),
    };
    print_calls(rt, &plan, case.line(2))
}

fn main(rt: HostRuntime) -> io::Result<()> {
    // Room for all cases.
    let mut room = filled::<524_288>(0);
    let n = read_available(&mut rt.stdin(), &mut room);
    let rt = Unheeded(&rt);
    let mut network = PowerNetwork::new(1.0, ReconfigAlgorithm::BranchExchange, 100);
    for case in Cases::of(&room[..n], 3) {
        rt.write_all(case.name)?;
        rt.println("")?;
        if !case.text.is_empty() {
            // As a stored text, so that it is the call that refuses a branch from a bus to itself. A text that is refused here is said to be no feeder: such a case is
            // wrongly made.
            match read_stored(case.text) {
                Ok(read) => network = read,
                Err(_) => rt.println("no feeder")?,
            }
        }
        print_case(&rt, network, case)?;
    }
    Ok(())
}
