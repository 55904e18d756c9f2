// The stored texts on standard input, read as new ones and repaired. A case is a line 'LENGTH NAME', a text, a line feed, and a line with two numbers of four
// hexadecimal digits, a blank between them: how many bytes its repair has, and how many of them stand before the 87 lines. Of a refused text the first is the length of a
// slice, and the second 0. For each case there is a line with the name and what a new text is answered with. Then the text is repaired into five slices of dots: one as
// long as the repair, an empty one, one a byte shorter, one a byte longer, one 80 bytes longer. For each there is a line 'LENGTH: ANSWER, SLICE'. SLICE is 'kept'
// where every byte is a dot still, 'as stored' where the slice has the stored text at its front and dots behind it, 'as before' where it has the first slice there, else
// the slice itself, its line feeds as they are. At last comes what is read before the 87 lines.
#![tactic(auto)]

ghost use Rattle.std.specs.Prelude.{◌≤◌};
ghost use Rattle.frames.specs.Lengths.{longest_text};

use cases::unheeded::Unheeded;
use cases::{Cases, DOT, LentCase, begins_with, filled};
use frames::reader::read_text;
use input::read_available;
use lines::hex::number_at;
use repairs::repair::repair_text;
use std::io;
use texts::writer::LONGEST_TEXT;

// How much longer the last slice is than the repair.
const LONGER: usize = 80;

const MOST_ROOM: usize = LONGEST_TEXT + LONGER;

// What a new text is answered with.
fn print_read(rt: &impl Print, text: &[u8]) -> io::Result<()> {
    match read_text(text) {
        Ok(_) => rt.println("accepted"),
        Err(refusal) => println!(rt; "refused {refusal}"),
    }
}

fn print_slice(rt: &impl Print, out: &[u8], text: &[u8], before: &[u8]) -> io::Result<()> {
    if begins_with(out, b"") {
        return rt.println(", kept");
    }
    if begins_with(out, text) {
        return rt.println(", as stored");
    }
    if begins_with(out, before) {
        return rt.println(", as before");
    }
    rt.print(", [")?;
    rt.write_all(out)?;
    rt.println("]")
}

// Into this slice of dots, and then what became of it.
fn print_repair(rt: &impl Print, text: &[u8], before: &[u8], out: &mut [u8]) -> io::Result<()> {
    let room = out.len();
    print!(rt; "{room}: ")?;
    match repair_text(text, out) {
        Ok(length) => print!(rt; "{length} written")?,
        Err(refusal) => print!(rt; "refused {refusal}")?,
    }
    print_slice(rt, out, text, before)
}

// A length, in four digits of a line.
fn length_at(line: &[u8], at: usize) -> usize
    ensures { result ≤ longest_text }
{
    (number_at(line, at, 4) as usize).min(LONGEST_TEXT)
}

// The first slice, the others, and what is read before the 87 lines.
fn print_case(rt: &impl Print, case: LentCase) -> io::Result<()> {
    let lengths = case.line(0);
    let room = length_at(lengths, 0);
    let left = length_at(lengths, 5);
    rt.write_all(case.name)?;
    rt.print(" ")?;
    print_read(rt, case.text)?;
    let mut first = filled::<MOST_ROOM>(DOT);
    print_repair(rt, case.text, b"", &mut first[..room])?;
    for length in [
        Some(0),
        room.checked_sub(1),
        Some(room + 1),
        Some(room + LONGER),
    ]
    .into_iter()
    .flatten()
    {
        let mut out = filled::<MOST_ROOM>(DOT);
        print_repair(
            rt,
            case.text,
            &first[..room],
            &mut out[..length.min(MOST_ROOM)],
        )?;
    }
    if left > 0 {
        print_read(rt, &first[..left])?;
    }
    Ok(())
}

fn main(rt: HostRuntime) -> io::Result<()> {
    // Room for all cases.
    let mut room = filled::<344_064>(0);
    let n = read_available(&mut rt.stdin(), &mut room);
    let rt = Unheeded(&rt);
    for case in Cases::of(&room[..n], 1) {
        print_case(&rt, case)?;
    }
    Ok(())
}
