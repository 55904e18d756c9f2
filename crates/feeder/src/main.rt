// Prints the answer to the feeder text on standard input. Where the input cannot be read, or the answer not be written, a line on standard error says so.
#![tactic(auto)]

ghost use Rattle.std.specs.Prelude.{◌≡◌, ◌≤◌, length, take, IfOk, IfErr};
ghost use Rattle.input.specs.Counts.{IsPrefixLen};
ghost use Rattle.frames.specs.Lengths.{deciding_length};
ghost use Rattle.printing.specs.Lengths.{printed_length};
ghost use Rattle.answers.specs.Printing.{printed};

use answers::printer::answer_text;
use input::{ReadFailed, read_input};
use printing::lengths::{MAX_LENGTH, REFUSAL_LENGTH};
use printing::writer::write_refusal;
use std::io::Read;

// Reads a text into room for all that can decide it (answers/specs/PrintingLaws, printed_early), which is demanded of the room alone.
fn read_whole<R: Read>(reader: &mut R, room: &mut [u8]) -> Result<usize, ReadFailed>
    requires { deciding_length ≤ length room.old }
    ensures read { IfOk result (λ count. IsPrefixLen count room.new) }
    ensures failed { IfErr result (λ e. IsPrefixLen e.count room.new) }
{
    read_input(reader, room)
}

// What is printed for a text, at the front of the slice, and how many bytes it is: the lines that are answered, or the 8F line of a refusal.
fn print_text(text: &[u8], out: &mut [u8]) -> usize
    requires { printed_length ≤ length out.old }
    ensures prefix_len { IsPrefixLen result out.new }
    ensures out_after { take result out.new ≡ printed text.now }
{
    match answer_text(text, out) {
        Ok(count) => usize::from(count),
        Err(refusal) => {
            write_refusal(out, refusal.number(), refusal.place());
            REFUSAL_LENGTH
        }
    }
}

fn main(rt: HostRuntime) {
    // 65,536 bytes of a text are read at most.
    let mut text = [0u8; 65536];
    let Ok(count) = read_whole(&mut rt.stdin(), &mut text) else {
        let _ = rt.eprintln("feeder: the input cannot be read");
        return;
    };
    let mut out = [0u8; MAX_LENGTH];
    let n = print_text(&text[..count], &mut out);
    if rt.write_all(&out[..n]).is_err() {
        let _ = rt.eprintln("feeder: the answer cannot be written");
    }
}
