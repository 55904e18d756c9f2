// The texts of the cases on standard input, read as stored ones and written again. A case is a line 'LENGTH NAME', a frame text, a line feed, and a line with one letter: what is
// changed in the records once they are read (src/changes.rt), a hyphen for nothing. The records are written into five slices of dots: an empty one, one a byte shorter
// than the text that was read, one as long as it, one a byte longer, one 80 bytes longer. For each there is a line 'NAME LENGTH: ANSWER, SLICE'. SLICE is 'kept' where
// every byte is a dot still, 'as read' where the slice has the text that was read at its front and dots behind it, else the slice itself, its line feeds as they are.
#![tactic(auto)]

mod changes;

use cases::unheeded::Unheeded;
use cases::{Cases, DOT, LentCase, begins_with, filled};
use changes::changed;
use frames::reader::read_stored;
use input::read_available;
use network::topology::PowerNetwork;
use std::io;
use texts::writer::{LONGEST_TEXT, write_text};

// How much longer the last slice is than the text that was read.
const LONGER: usize = 80;

const MOST_ROOM: usize = LONGEST_TEXT + LONGER;

fn print_slice(rt: &impl Print, out: &[u8], text: &[u8]) -> io::Result<()> {
    if begins_with(out, b"") {
        return rt.println(", kept");
    }
    if begins_with(out, text) {
        return rt.println(", as read");
    }
    rt.print(", [")?;
    rt.write_all(out)?;
    rt.println("]")
}

// Into a slice of this length.
fn print_answer(
    rt: &impl Print,
    network: PowerNetwork,
    case: LentCase,
    room: usize,
) -> io::Result<()> {
    let room = room.min(MOST_ROOM);
    let mut out = filled::<MOST_ROOM>(DOT);
    rt.write_all(case.name)?;
    print!(rt; " {room}: ")?;
    match write_text(network, &mut out[..room]) {
        Ok(length) => print!(rt; "{length} written")?,
        Err(refusal) => print!(rt; "refused {refusal}")?,
    }
    print_slice(rt, &out[..room], case.text)
}

// A text that the reader refuses is said to be no feeder: such a case is wrongly made. One that it accepts is not empty.
fn print_case(rt: &impl Print, case: LentCase) -> io::Result<()> {
    let Ok(read) = read_stored(case.text) else {
        return rt.println("no feeder");
    };
    let network = match case.line(0) {
        [change, ..] => changed(read, *change),
        [] => read,
    };
    let n = case.text.len().min(LONGEST_TEXT);
    for room in [0, n.saturating_sub(1), n, n + 1, n + LONGER] {
        print_answer(rt, network, case, room)?;
    }
    Ok(())
}

fn main(rt: HostRuntime) -> io::Result<()> {
    // Room for all cases.
    let mut room = filled::<278_528>(0);
    let n = read_available(&mut rt.stdin(), &mut room);
    let rt = Unheeded(&rt);
    for case in Cases::of(&room[..n], 1) {
        print_case(&rt, case)?;
    }
    Ok(())
}
