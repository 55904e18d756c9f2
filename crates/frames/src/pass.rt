// The lines of one kind.
ghost use Rattle.std.specs.Prelude.{◌≡◌, ◌+◌, ◌≤◌, ◌<◌, length, drop};
ghost use Rattle.lines.specs.Lines.{cut};
ghost use Rattle.frames.specs.Passes.{pass_run};
ghost use Rattle.frames.specs.FrameReads.{IsRead};

use network::error::Refusal;
use record_lines::record::{Record, read_line};

// How many records were read, and where the next line begins, or the refusal of the line there.
#[derive(Clone, Copy)]
pub(crate) struct Pass {
    pub(crate) read: u16,
    pub(crate) next: Result<usize, Refusal>,
}

// As many lines as there is room for records, the first of them at `start` and `place`.
pub(crate) fn read_lines<R: Record + Copy>(
    text: &[u8],
    start: usize,
    place: u16,
    out: &mut [R],
) -> Pass
    requires { (start ≤ length text.now) × (place + length out.old < 65536) }
    ensures { IsRead text.now (pass_run R.frame R.made R.faults (length out.old) place (cut (drop start text.now))) out.old out.new result }
{
    let mut at = start;
    for (i, slot) in out.iter_mut().enumerate() {
        match read_line(text, at, place + i as u16) {
            Ok(record) => *slot = record,
            Err(refusal) => {
                return Pass {
                    read: i as u16,
                    next: Err(refusal),
                };
            }
        }
        at += R::SIZE + 1;
    }
    Pass {
        read: out.len() as u16,
        next: Ok(at),
    }
}
