// Records in bytes: each record's kind byte and fields, one record behind the other. Their text has a line for each, a byte in two digits.
ghost use Rattle.std.specs.Prelude.{◌≡◌, ◌+◌, ◌≤◌, length};
ghost use Rattle.std.proofs.lemmas.List.Edits.{sets};
ghost use Rattle.frames.specs.Lengths.{deciding_length};
ghost use Rattle.network.specs.Answers.{answer_of};
ghost use Rattle.record_bytes.specs.RecordBytes.{frame_bytes, text_of_bytes, written_records};
ghost use Rattle.record_bytes.specs.RecordSteps.{line_bytes, byte_text};
ghost use Rattle.record_bytes.specs.RecordCalls.{Decides};

use frames::reader::read_text;
use network::branch::Branch;
use network::bus::Bus;
use network::error::Refusal;
use network::switch::Switch;
use record_lines::head::Head;
use record_lines::record::Record;
use record_lines::supply::Supply;
use slices::writer::{write_bytes, write_digits, write_line};
use texts::writer::LONGEST_TEXT;

// "a line over 36 characters is 2 whatever they are": so many of its characters show it.
const DECIDING_LINE: usize = 37;

// So many of a text's bytes decide (frames/specs/Lengths).
const DECIDING_LENGTH: usize = LONGEST_TEXT + DECIDING_LINE;

// Room for the text's beginning: a step writes at most three bytes, and begins below DECIDING_LENGTH.
const ROOM: usize = DECIDING_LENGTH + 2;

// How many bytes the frame has that begins with this kind byte, where so many are left: as many as its kind has, and all that are left where the kind is none
// of the five or fewer are left.
fn frame_bytes(kind: u8, left: usize) -> usize
    ensures { result ≡ frame_bytes kind left }
{
    match kind {
        Head::KIND => (Head::SIZE / 2).min(left),
        Bus::KIND => (Bus::SIZE / 2).min(left),
        Branch::KIND => (Branch::SIZE / 2).min(left),
        Switch::KIND => (Switch::SIZE / 2).min(left),
        Supply::KIND => (Supply::SIZE / 2).min(left),
        _ => left,
    }
}

// How many bytes of a line there are from this byte on: so many are left of a line that was begun, or a frame begins here.
fn line_bytes(left: usize, byte: u8, rest: usize) -> usize
    ensures { result ≡ line_bytes left byte rest }
{
    if left == 0 {
        return frame_bytes(byte, rest);
    }
    left
}

// A byte with so many bytes of its line from it on, written at a place: its digits, and the line feed behind the last. Where the next byte's digits begin.
fn write_byte(text: &mut [u8], at: usize, byte: u8, left: usize) -> usize
    requires { at + 3 ≤ length text.old }
    ensures { (text.new ≡ sets text.old at (byte_text left byte)) × (result ≡ at + length (byte_text left byte)) }
{
    if left == 1 {
        write_line(&mut text[at..], 2, byte as u64);
        return at + 3;
    }
    write_digits(&mut text[at..], 2, byte as u64);
    at + 2
}

// The text of the records: all of it, or as much of it as decides. How many bytes stand at the front of the slice then.
fn write_frames(records: &[u8], text: &mut [u8]) -> usize
    requires { deciding_length + 2 ≤ length text.old }
    ensures { Decides (text_of_bytes records.now) text.new result }
{
    let mut at = 0usize;
    let mut left = 0usize;
    for (i, byte) in records.iter().enumerate() {
        if at >= DECIDING_LENGTH {
            return at;
        }
        left = line_bytes(left, *byte, records.len() - i);
        at = write_byte(text, at, *byte, left);
        left -= 1;
    }
    at
}

// The text of records in bytes, at the front of the slice, which keeps what is behind it. The text's refusal comes first, then 13; a refusal writes no byte.
pub fn write_records(records: &[u8], out: &mut [u8]) -> Result<u16, Refusal>
    ensures { record { answer = answer_of result; out = out.new } ≡ written_records records.now out.old }
{
    let mut text = [0u8; ROOM];
    let n = write_frames(records, &mut text);
    read_text(&text[..n])?;
    if out.len() < n {
        return Err(Refusal::Room);
    }
    write_bytes(out, &text[..n]);
    Ok(n as u16)
}
