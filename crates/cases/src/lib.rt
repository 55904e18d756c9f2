// The cases that test programs read: a line 'LENGTH NAME', a text of that length, a line feed, and lines of the program's own.
#![tactic(auto)]

ghost use Rattle.std.specs.Prelude.{◌≡◌, ◌≤◌, ◌<◌, ◌&&◌, ◌==◌, ℕ, nat_eq, length, drop, get_or, MatchOption};
ghost use Rattle.std.specs.List.{starts_with, list_all};
ghost use Rattle.std.specs.Iterator.{YieldsFirstBy, item_count};
ghost use Rattle.cases.specs.Lent.{lines_end, cases_of, line_at, state_of};
ghost use Rattle.cases.specs.LentLaws.{lent_text, cases_left};
ghost use Rattle.cases.specs.Cases.{Inside, part_of, line_length, line_behind, digit_of, leading_number, first_case, state_bytes};

pub mod faults;
pub mod unheeded;

use scan::find;
use std::array;
use std::marker::Model;

// From one position of an input to another. The library's range is not `Copy`, and would have to be cloned for each use.
#[derive(Clone, Copy)]
pub struct Part {
    pub from: usize,
    pub to: usize,
}

// Where the name and the text of a case stand.
#[derive(Clone, Copy)]
pub struct Case {
    pub name: Part,
    pub text: Part,
}

// A number that begins a line, and how many digits it has.
#[derive(Clone, Copy)]
struct Number {
    value: usize,
    digits: usize,
}

// The bytes of a part, as far as the input has them.
pub fn part_of(input: &[u8], part: Part) -> &[u8]
    ensures { result.now ≡ part_of input.now part }
{
    let to = part.to.min(input.len());
    let from = part.from.min(to);
    &input[from..to]
}

// How long the first line is.
#[tactic(auto, unfolding(crate::specs::Cases::line_length))]
fn line_length(text: &[u8]) -> usize
    ensures value { result ≡ line_length text.now }
    ensures within { result ≤ length text.now }
{
    find(text, b'\n')
}

// The line that begins behind position `at`.
pub fn line_behind(text: &[u8], at: usize) -> Part
    ensures { (result ≡ line_behind text.now at) × Inside result (length text.now) }
{
    let from = (at.min(text.len()) + 1).min(text.len());
    let to = from + line_length(&text[from..]);
    Part { from, to }
}

// The value of a digit; another character has none.
#[tactic(auto, unfolding(crate::specs::Cases::digit_of))]
fn digit(c: u8) -> Option<u8>
    ensures { MatchOption result (digit_of c ≡ 255) (λ d. (digit_of c ≡ d) × (d < 10)) }
{
    match c {
        b'0'..=b'9' => Some(c - b'0'),
        _ => None,
    }
}

// Digits are taken while the value is small, so that it never overflows.
fn leading(line: &[u8]) -> Number
    ensures { (result ≡ leading_number line.now) × (result.digits ≤ length line.now) }
{
    let mut value = 0usize;
    for (digits, c) in line.iter().enumerate() {
        let Some(d) = digit(*c) else {
            return Number { value, digits };
        };
        if value >= 9_999_999 {
            return Number { value, digits };
        }
        value = value * 10 + usize::from(d);
    }
    Number {
        value,
        digits: line.len(),
    }
}

// The case at the front of an input.
pub fn first_case(input: &[u8]) -> Case
    ensures { (result ≡ first_case input.now)
        × Inside result.name (length input.now) × Inside result.text (length input.now) }
{
    let head = line_length(input);
    let number = leading(&input[..head]);
    let name = (number.digits + 1).min(head);
    let from = (head + 1).min(input.len());
    let to = from + number.value.min(input.len() - from);
    Case {
        name: Part {
            from: name,
            to: head,
        },
        text: Part { from, to },
    }
}

// How many bytes of a case's state are read: more than a state may have, so that cases with too many can be written.
pub const MAX_STATE: usize = 1024;

// The byte that a digit of a state is written for. Beyond the digits the bytes are 00, and another character is 255, which no state has.
fn state_byte(digits: &[u8], at: usize) -> u8
    ensures { result ≡ digit_of (get_or digits.now at 48) }
{
    let c = digits.get(at).copied().unwrap_or(b'0');
    digit(c).unwrap_or(255)
}

// The bytes of a state, each written as a digit, and 00 behind them.
pub fn state_bytes(digits: &[u8]) -> [u8; MAX_STATE]
    ensures { result ≡ state_bytes digits.now }
{
    array::from_fn(|at| state_byte(digits, at))
}

// A state that is written in digits: the bytes of the first MAX_STATE of them.
#[derive(Drop)]
pub struct State {
    room: [u8; MAX_STATE],
    filled: usize,
}

impl Model for State {
    ghost use Rattle.std.specs.Prelude.{List, ℕ, ◌≤◌, take};

    ghost Value = { List ℕ };

    ghost view = { λ s. take s.filled s.room };

    ghost invariant = { λ s. s.filled ≤ 1024 };
}

impl State {
    pub fn of(digits: &[u8]) -> State
        ensures { result ≡ state_of digits.now }
    {
        State {
            room: state_bytes(digits),
            filled: digits.len().min(MAX_STATE),
        }
    }

    pub fn bytes(&self) -> &[u8]
        ensures { result.now ≡ self.now }
    {
        &self.room[..self.filled]
    }
}

// Where the last of so many lines ends that begin behind position `at`.
fn lines_end(input: &[u8], at: usize, lines: usize) -> usize
    ensures value { result ≡ lines_end input.now at lines }
    ensures within { at ≤ length input.now → result ≤ length input.now }
{
    let mut end = at;
    'lines: for _ in 0..lines {
        end = line_behind(input, end).to;
    }
    end
}

// A case, lent out of its input: the name, the text, and the program's own lines.
#[derive(Clone, Copy)]
pub struct LentCase<'a> {
    pub name: &'a [u8],
    pub text: &'a [u8],
    pub lines: &'a [u8],
}

impl<'a> LentCase<'a> {
    // The program's own line with this number, counted from 0, and nothing behind the last one.
    pub fn line(&self, number: usize) -> &'a [u8]
        ensures { result.now ≡ line_at self.now.lines.now number }
    {
        let mut lines = self.lines;
        'passed: for _ in 0..number {
            lines = &lines[(line_length(lines) + 1).min(lines.len())..];
        }
        &lines[..line_length(lines)]
    }
}

// The cases of an input that are still to come, each with so many lines of the program's own.
#[derive(Drop)]
pub struct Cases<'a> {
    rest: &'a [u8],
    own_lines: usize,
}

impl<'a> Cases<'a> {
    pub fn of(input: &'a [u8], own_lines: usize) -> Cases<'a>
        ensures { cases_left result ≡ cases_of own_lines input.now }
    {
        Cases {
            rest: input,
            own_lines,
        }
    }
}

impl<'a> Iterator for Cases<'a> {
    type Item = LentCase<'a>;

    ghost next_gives = { YieldsFirstBy lent_text cases_left };

    ghost remaining = { item_count cases_left };

    fn next(&mut self) -> Option<LentCase<'a>> {
        let input = self.rest;
        if input.is_empty() {
            return None;
        }
        let case = first_case(input);
        let end = lines_end(input, case.text.to, self.own_lines);
        let lines = Part {
            from: case.text.to + 1,
            to: end,
        };
        self.rest = &input[(end + 1).min(input.len())..];
        Some(LentCase {
            name: part_of(input, case.name),
            text: part_of(input, case.text),
            lines: part_of(input, lines),
        })
    }
}

// So many bytes, all the same. A function's own array of half a million bytes would be written out in its proof; of this one it knows what is promised.
pub fn filled<const N: usize>(byte: u8) -> [u8; N]
    ensures long { N ≡ length result }
    ensures each { (at : ℕ) → at < N → get_or result at byte ≡ byte }
{
    [byte; N]
}

// What each byte of a lent slice is before a call.
pub const DOT: u8 = b'.';

fn is_dots(bytes: &[u8]) -> bool
    ensures { result ≡ list_all (λ b. b == 46) bytes.now }
{
    bytes.iter().all(|b| *b == DOT)
}

// Whether these bytes stand at a lent slice's front, and dots behind them.
pub fn begins_with(out: &[u8], front: &[u8]) -> bool
    ensures { result ≡ (starts_with nat_eq out.now front.now && list_all (λ b. b == 46) (drop (length front.now) out.now)) }
{
    out.starts_with(front) && is_dots(&out[front.len()..])
}
