// Upper-case hexadecimal digits, most significant first.
ghost use Rattle.std.specs.Prelude.{◌≡◌, ◌≤◌, length};
ghost use Rattle.numbers.specs.Every.{every};
ghost use Rattle.lines.specs.Hex.{is_digit, value, number, number_at};

// Is this '0' to '9' or 'A' to 'F'?
#[tactic(auto, unfolding(crate::specs::Hex::is_digit))]
fn is_digit(c: u8) -> bool
    ensures { result ≡ is_digit c }
{
    matches!(c, b'0'..=b'9' | b'A'..=b'F')
}

// Are all characters digits?
pub(crate) fn all_digits(s: &[u8]) -> bool
    ensures { result ≡ every is_digit s.now }
{
    s.iter().all(|c| is_digit(*c))
}

// What a digit stands for; another byte stands for 0.
#[tactic(auto, unfolding(crate::specs::Hex::value, crate::specs::Hex::is_digit))]
fn value(c: u8) -> u64
    ensures { result ≡ value c }
{
    match c {
        b'0'..=b'9' => u64::from(c - b'0'),
        b'A'..=b'F' => u64::from(c - b'A' + 10),
        _ => 0,
    }
}

// The number that a row of digits writes.
fn number(s: &[u8]) -> u64
    requires { length s.now ≤ 16 }
    ensures { result ≡ number s.now }
{
    let mut n = 0u64;
    for c in s {
        n = n * 16 + value(*c);
    }
    n
}

// The number that the characters from `at` on write, `width` of them, at most sixteen and no more than there are.
#[tactic(auto, using(crate::proofs::DigitLaws::nothing_at))]
pub fn number_at(s: &[u8], at: usize, width: usize) -> u64
    ensures { result ≡ number_at at width s.now }
{
    let Some(rest) = s.get(at..) else {
        return 0;
    };
    number(&rest[..width.min(16).min(rest.len())])
}
