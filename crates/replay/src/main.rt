// Replays the fixed list on standard input (tests/answers.md): answers each text and compares what is printed with the entry's output, to the
// letter. The lent bytes behind the answer must stay as they were, and all of them beside a refusal.
#![tactic(auto)]

ghost use Rattle.std.specs.Prelude.{◌≡◌, ◌+◌, ◌≤◌, ◌<◌, length, IfSome};
ghost use Rattle.printing.specs.Lengths.{printed_length};

use answers::printer::answer_text;
use input::{read_available, read_input};
use network::error::Refusal;
use printing::lengths::{MAX_LENGTH, REFUSAL_LENGTH};
use printing::writer::write_refusal;
use standard_output::{print_decimal, write_all};
use std::io::Read;

// The list's limit: no text is longer. No output is longer than MAX_LENGTH.
const MOST_TEXT: usize = 32767;

// An entry's head: the two lengths, four digits each, and a line feed.
const HEAD_LENGTH: usize = 9;

// More entries are not read, so that the replay ends on any input.
const MOST_ENTRIES: u64 = 65535;

// What each byte holds before an answer is written: no answer has such a byte.
const UNWRITTEN: u8 = 170;

// The list is damaged: broken off inside an entry, or with a head that is none.
#[derive(Clone, Copy, Debug, PartialEq, Eq)]
struct Damaged;

// What the replay found: how many texts it answered, how many of them otherwise and which of them first, and whether it came to the list's end.
#[derive(Clone, Copy)]
struct Found {
    texts: u64,
    differences: u64,
    first: Option<u64>,
    ended: bool,
}

// The value of a digit; another character has none.
fn digit(c: u8) -> Option<usize>
    ensures { IfSome result (λ d. d < 16) }
{
    match c {
        b'0'..=b'9' => Some(usize::from(c - b'0')),
        b'A'..=b'F' => Some(usize::from(c - b'A') + 10),
        _ => None,
    }
}

// The length that four digits of a head say.
fn length_at(head: [u8; HEAD_LENGTH], at: usize) -> Result<usize, Damaged>
    requires { at ≤ 5 }
{
    let a = digit(head[at]).ok_or(Damaged)?;
    let b = digit(head[at + 1]).ok_or(Damaged)?;
    let c = digit(head[at + 2]).ok_or(Damaged)?;
    let d = digit(head[at + 3]).ok_or(Damaged)?;
    Ok(a * 4096 + b * 256 + c * 16 + d)
}

// Whether no byte was written.
fn kept(bytes: &[u8]) -> bool {
    bytes.iter().all(|byte| *byte == UNWRITTEN)
}

// Whether an answer of n bytes is the output, and the bytes behind it are kept.
fn prints(out: &[u8], n: usize, output: &[u8]) -> bool {
    n <= out.len() && &out[..n] == output && kept(&out[n..])
}

// Whether a refusal's line is the output, and every byte is kept.
fn refuses(out: &[u8], refusal: Refusal, output: &[u8]) -> bool {
    let mut line = [0u8; REFUSAL_LENGTH];
    write_refusal(&mut line, refusal.number(), refusal.place());
    &line[..] == output && kept(out)
}

// The slice that an answer is written to.
fn unwritten() -> [u8; MAX_LENGTH]
    ensures { printed_length ≡ length result }
{
    [UNWRITTEN; MAX_LENGTH]
}

// Whether what is printed of a text's answer is the output. The slice has room for the longest.
fn answers_with(text: &[u8], output: &[u8]) -> bool {
    let mut out = unwritten();
    match answer_text(text, &mut out) {
        Ok(n) => prints(&out, usize::from(n), output),
        Err(refusal) => refuses(&out, refusal, output),
    }
}

// The next n bytes of the input, at the front of the room.
fn read_bytes<R: Read>(reader: &mut R, room: &mut [u8], n: usize) -> Result<(), Damaged>
    requires { n ≤ length room.old }
    ensures { length room.new ≡ length room.old }
{
    if read_input(reader, &mut room[..n]) == Ok(n) {
        return Ok(());
    }
    Err(Damaged)
}

fn text_room() -> [u8; MOST_TEXT]
    ensures { 32767 ≡ length result }
{
    [0; MOST_TEXT]
}

fn output_room() -> [u8; MAX_LENGTH]
    ensures { printed_length ≡ length result }
{
    [0; MAX_LENGTH]
}

// Reads an entry's text of n bytes and its output of m: whether the answer is the output.
fn replay_entry<R: Read>(reader: &mut R, n: usize, m: usize) -> Result<bool, Damaged>
    requires { (n ≤ 32767) × (m ≤ printed_length) }
{
    let mut text = text_room();
    read_bytes(reader, &mut text, n)?;
    let mut output = output_room();
    read_bytes(reader, &mut output, m)?;
    Ok(answers_with(&text[..n], &output[..m]))
}

// The next entry of the list, replayed: whether the answer is its output. None where the list ends.
fn next_entry<R: Read>(reader: &mut R) -> Result<Option<bool>, Damaged> {
    let mut head = [0u8; HEAD_LENGTH];
    let n = read_available(reader, &mut head);
    if n == 0 {
        return Ok(None);
    }
    if n < HEAD_LENGTH || head[8] != b'\n' {
        return Err(Damaged);
    }
    let text_length = length_at(head, 0)?;
    let output_length = length_at(head, 4)?;
    if text_length > MOST_TEXT || output_length > MAX_LENGTH {
        return Err(Damaged);
    }
    Ok(Some(replay_entry(reader, text_length, output_length)?))
}

// What is found with one entry more. Entries are counted from 1.
fn counted(mut found: Found, same: bool) -> Found
    requires { (found.differences ≤ found.texts) × (found.texts < 65535) }
    ensures { (result.differences ≤ result.texts) × (result.texts ≡ found.texts + 1) }
{
    found.texts += 1;
    if !same {
        found.differences += 1;
        found.first = found.first.or(Some(found.texts));
    }
    found
}

// Replays the list from its start to its end, or as far as it can be read.
fn replay<R: Read>(reader: &mut R) -> Found
    ensures { result.texts ≤ 65535 }
{
    let mut found = Found {
        texts: 0,
        differences: 0,
        first: None,
        ended: false,
    };
    for _ in 0..MOST_ENTRIES {
        match next_entry(reader) {
            Ok(Some(same)) => found = counted(found, same),
            Ok(None) => {
                found.ended = true;
                return found;
            }
            Err(Damaged) => return found,
        }
    }
    found
}

// Prints what an entry's number is said of, the number, and a line end.
fn print_entry(rt: &impl Print, words: &[u8], number: u64) {
    write_all(rt, words);
    print_decimal(rt, number);
    write_all(rt, b"\n");
}

fn main(rt: HostRuntime) {
    let found = replay(&mut rt.stdin());
    print_decimal(&rt, found.texts);
    write_all(&rt, b" texts, ");
    print_decimal(&rt, found.differences);
    write_all(&rt, b" differences\n");
    if let Some(first) = found.first {
        print_entry(&rt, b"first different: entry ", first);
    }
    if !found.ended {
        print_entry(&rt, b"cannot be read: entry ", found.texts + 1);
    }
}
