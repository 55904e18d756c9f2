// Lines of a text: where one ends, and refusals 1 and 2.
ghost use Rattle.std.specs.Prelude.{◌≡◌, ◌<◌, length, drop};
ghost use Rattle.network.specs.Answers.{answer_of};
ghost use Rattle.lines.specs.Lines.{cut, character_faults};
ghost use Rattle.lines.specs.FirstLine.{LineEnd, judge_first, judge_frame, judge_end};

use crate::hex;
use network::error::Refusal;
use scan::find;

// "a line over 36 characters is 2 whatever they are"
const LONGEST: usize = 36;

// How many characters stand before the next line feed or the end. 37 stands for any number over 36, so that a long line costs no more.
fn line_length(rest: &[u8]) -> usize
    ensures { LineEnd rest.now result }
{
    let size = rest.len().min(LONGEST + 1);
    find(&rest[..size], b'\n')
}

// What the characters of a line are refused for whatever is wanted: 2 where there are over 36, 1 where the line is unended or odd or has another character.
fn judge_characters(rest: &[u8], n: usize, place: u16) -> Result<(), Refusal>
    requires { (0 < length rest.now) × LineEnd rest.now n }
    ensures { answer_of result ≡ judge_first character_faults place (cut rest.now) }
{
    if n > LONGEST {
        return Err(Refusal::Shape { line: place });
    }
    if n == rest.len() || n % 2 == 1 || !hex::all_digits(&rest[..n]) {
        return Err(Refusal::Characters { line: place });
    }
    Ok(())
}

// Refusals 1 and 2 of the line that begins at `at`, where a frame of this kind and of this many characters is wanted. A missing line is 2.
pub fn judge_line(text: &[u8], at: usize, place: u16, kind: u8, size: usize) -> Result<(), Refusal>
    ensures { answer_of result ≡ judge_frame kind size place (cut (drop at text.now)) }
{
    if at >= text.len() {
        return Err(Refusal::Shape { line: place });
    }
    let rest = &text[at..];
    let n = line_length(rest);
    judge_characters(rest, n, place)?;
    if n != size || hex::number_at(&rest[..n], 0, 2) != u64::from(kind) {
        return Err(Refusal::Shape { line: place });
    }
    Ok(())
}

// A line behind the last frame is one too many, and so 2 where its characters are not refused.
pub fn judge_end(text: &[u8], at: usize, place: u16) -> Result<(), Refusal>
    ensures { answer_of result ≡ judge_end place (cut (drop at text.now)) }
{
    if at >= text.len() {
        return Ok(());
    }
    let rest = &text[at..];
    let judged = judge_characters(rest, line_length(rest), place);
    judged?;
    Err(Refusal::Shape { line: place })
}
