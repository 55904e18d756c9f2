// Repairs the stored text on standard input. Where the input cannot be read, or the repaired text not be written, a line on standard error says so.
#![tactic(auto)]

ghost use Rattle.std.specs.Prelude.{◌≡◌, ◌≤◌, length, take, IfOk, IfErr};
ghost use Rattle.input.specs.Counts.{IsPrefixLen};
ghost use Rattle.frames.specs.Lengths.{longest_text, deciding_length};
ghost use Rattle.repairs.specs.Repairs.{printed_repair};

use input::{ReadFailed, read_input};
use printing::lengths::REFUSAL_LENGTH;
use printing::writer::write_refusal;
use repairs::repair::repair_text;
use std::io::Read;
use texts::writer::LONGEST_TEXT;

// Reads a text into room for all that can decide it (repairs/specs/Claim, repair_early), which is demanded of the room alone.
fn read_whole<R: Read>(reader: &mut R, room: &mut [u8]) -> Result<usize, ReadFailed>
    requires { deciding_length ≤ length room.old }
    ensures read { IfOk result (λ count. IsPrefixLen count room.new) }
    ensures failed { IfErr result (λ e. IsPrefixLen e.count room.new) }
{
    read_input(reader, room)
}

// What is printed for a text, at the front of the slice, and how many bytes it is: the repaired text, or the 8F line of a refusal.
fn print_repair(text: &[u8], out: &mut [u8]) -> usize
    requires { longest_text ≤ length out.old }
    ensures prefix_len { IsPrefixLen result out.new }
    ensures out_after { take result out.new ≡ printed_repair text.now }
{
    match repair_text(text, out) {
        Ok(count) => usize::from(count),
        Err(refusal) => {
            write_refusal(out, refusal.number(), refusal.place());
            REFUSAL_LENGTH
        }
    }
}

fn main(rt: HostRuntime) {
    // 65,536 bytes of a text are read at most.
    let mut text = [0u8; 65536];
    let Ok(count) = read_whole(&mut rt.stdin(), &mut text) else {
        let _ = rt.eprintln("repair: the input cannot be read");
        return;
    };
    let mut out = [0u8; LONGEST_TEXT];
    let n = print_repair(&text[..count], &mut out);
    if rt.write_all(&out[..n]).is_err() {
        let _ = rt.eprintln("repair: the text cannot be written");
    }
}
