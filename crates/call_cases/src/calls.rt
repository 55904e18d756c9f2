// The cases. A case is a line 'LENGTH NAME', a frame text, a line feed, and three lines: the letters CALL and CHANGE with a blank and PRESENT, then
// WANTED, then SLICE. CALL is S for radiality, form and loss of PRESENT, P for the plan from PRESENT to WANTED, R for that plan cut off, O for the
// operations, B for the best state, T for the text, D for the repair. CHANGE is I for 1,001 iterations, U for only two buses, W for 513 switches in the
// records that R, O, B and T get, or a hyphen for none. PRESENT and WANTED have a digit for each byte of the states, SLICE has a dot for each byte of the lent slice;
// of R it has the count in 16 hexadecimal digits and the lengths of the two slices, for the remaining moves and those that go back, in four each, a blank between them.
ghost use Rattle.std.specs.Prelude.{◌≤◌};

use crate::output::{print_count, print_numbers, print_refusal, print_result, print_slice};
use cases::{DOT, LentCase, State, filled};
use controller::calls::{
    feeder_form, feeder_loss, feeder_plan, feeder_radiality, feeder_repair_text,
};
use frames::reader::read_text;
use lines::hex::number_at;
use network::error::Refusal;
use network::topology::PowerNetwork;
use operations::operations::compute_switch_operations;
use reconfiguration::solve::solve;
use resumption::resume::resume;
use searches::answer::ReconfigResult;
use std::io;
use texts::writer::write_text;

// Bytes of the longest slice. The longest text has 27,436.
const ROOM: usize = 28_672;

fn print_state(rt: &impl Print, text: &[u8], state: &[u8]) -> io::Result<()> {
    print_numbers(rt, feeder_radiality(text, state), 2)?;
    print_numbers(rt, feeder_form(text, state), 8)?;
    print_numbers(rt, feeder_loss(text, state), 16)?;
    rt.println("")
}

// A count or a refusal.
fn print_answer(rt: &impl Print, answer: Result<u16, Refusal>) -> io::Result<()> {
    match answer {
        Ok(count) => print_count(rt, count),
        Err(refusal) => print_refusal(rt, refusal),
    }
}

fn print_solution(rt: &impl Print, answer: Result<ReconfigResult, Refusal>) -> io::Result<()> {
    match answer {
        Ok(res) => print_result(rt, res),
        Err(refusal) => print_refusal(rt, refusal),
    }
}

// What a call is asked about.
#[derive(Clone, Copy)]
struct Asked<'a> {
    text: &'a [u8],
    change: u8,
    present: &'a [u8],
    wanted: &'a [u8],
}

// The calls on records. A text that is refused keeps every byte of the slice.
impl Asked<'_> {
    // The records, with a fault that they get once they are read: a text with it would not be.
    fn network(&self) -> Result<PowerNetwork, Refusal> {
        let mut network = read_text(self.text)?;
        match self.change {
            b'I' => network.max_iterations = 1001,
            b'U' => network.bus_count = 2,
            b'W' => network.switch_count = 513,
            _ => {}
        }
        Ok(network)
    }

    fn operations(&self, out: &mut [u8]) -> Result<u16, Refusal> {
        compute_switch_operations(self.network()?, self.present, self.wanted, out)
    }

    fn solution(&self, out: &mut [u8]) -> Result<ReconfigResult, Refusal> {
        solve(self.network()?, out)
    }

    fn written(&self, out: &mut [u8]) -> Result<u16, Refusal> {
        write_text(self.network()?, out)
    }

    fn moves_left(
        &self,
        count: u64,
        remaining: &mut [u8],
        back: &mut [u8],
    ) -> Result<u16, Refusal> {
        let network = self.network()?;
        resume(network, self.present, self.wanted, count, remaining, back)
    }
}

// The length of a slice, in four digits of a line.
fn room_at(line: &[u8], at: usize) -> usize
    ensures { result ≤ 28672 }
{
    (number_at(line, at, 4) as usize).min(ROOM)
}

fn print_cut_plan(rt: &impl Print, asked: &Asked, slices: &[u8]) -> io::Result<()> {
    let mut remaining = filled::<ROOM>(DOT);
    let mut back = filled::<ROOM>(DOT);
    let remaining = &mut remaining[..room_at(slices, 17)];
    let back = &mut back[..room_at(slices, 22)];
    let count = number_at(slices, 0, 16);
    print_answer(rt, asked.moves_left(count, remaining, back))?;
    print_slice(rt, remaining)?;
    print_slice(rt, back)
}

// The calls that write into one slice.
fn print_lent(rt: &impl Print, call: u8, asked: &Asked, room: usize) -> io::Result<()> {
    let room = room.min(ROOM);
    let mut out = filled::<ROOM>(DOT);
    let out = &mut out[..room];
    match call {
        b'P' => print_numbers(
            rt,
            feeder_plan(asked.text, asked.present, asked.wanted, out),
            4,
        )?,
        b'D' => print_numbers(rt, feeder_repair_text(asked.text, out), 4)?,
        b'B' => print_solution(rt, asked.solution(out))?,
        b'T' => print_answer(rt, asked.written(out))?,
        _ => print_answer(rt, asked.operations(out))?,
    }
    print_slice(rt, out)
}

pub(crate) fn print_call(rt: &impl Print, case: LentCase) -> io::Result<()> {
    let [call, change, _, digits @ ..] = case.line(0) else {
        return Ok(());
    };
    let present = State::of(digits);
    let wanted = State::of(case.line(1));
    let asked = Asked {
        text: case.text,
        change: *change,
        present: present.bytes(),
        wanted: wanted.bytes(),
    };
    match *call {
        b'S' => print_state(rt, asked.text, asked.present),
        b'R' => print_cut_plan(rt, &asked, case.line(2)),
        call => print_lent(rt, call, &asked, case.line(2).len()),
    }
}
