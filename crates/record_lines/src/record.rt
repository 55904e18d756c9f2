// One kind of line: what its fields say, and the record that they make.
ghost use Rattle.std.specs.Prelude.{◌≡◌, List, ℕ, drop};
ghost use Rattle.network.specs.Answers.{Fault, accepted, answer_of, ◌and_then◌, judge};
ghost use Rattle.lines.specs.Frames.{Frame};
ghost use Rattle.lines.specs.Hex.{Fields, read_fields};
ghost use Rattle.lines.specs.Lines.{cut};
ghost use Rattle.record_lines.specs.Kinds.{read_one, without};
ghost use Rattle.record_lines.specs.FramedLaws.{size};

use lines::line::judge_line;
use network::error::Refusal;

// A record that a line writes. The impls look alike: each gives what its kind has of its own, and `read_line` is written once.
pub trait Record {
    // Its frame, the record that the fields make, and what refuses them: a byte without a meaning.
    ghost frame: { Frame };

    ghost made: { Fields frame.widths → Self };

    ghost faults: { Fields frame.widths → List Fault };

    ghost KIND: { ℕ };

    ghost SIZE: { ℕ };

    // The kind byte, and how many characters the line has.
    const KIND: u8;

    const SIZE: usize;

    // The record of a line's fields, which stand behind its kind byte, or refusal 3.
    fn of_fields(fields: &[u8], place: u16) -> Result<Self, Refusal>
        ensures { answer_of result ≡ (judge (faults (read_fields frame.widths fields.now)) place and_then accepted (made (read_fields frame.widths fields.now))) };

    ghost of_kind: { KIND ≡ frame.kind };

    ghost of_size: { SIZE ≡ size frame };
}

// The record of the line that begins at `at`, or refusal 1, 2 or 3.
pub fn read_line<R: Record>(text: &[u8], at: usize, place: u16) -> Result<R, Refusal>
    ensures { answer_of result ≡ without (read_one R.frame R.made R.faults place (cut (drop at text.now))) }
{
    let size = R::SIZE;
    judge_line(text, at, place, R::KIND, size)?;
    let line = &text[at..at + size];
    R::of_fields(&line[2..], place)
}
