// A byte that is looked for in a lent slice.
#![tactic(auto)]

ghost use Rattle.std.specs.Prelude.{◌≡◌, ◌≤◌, length};
ghost use Rattle.numbers.specs.Choose.{index_of};

// The first position at which the byte stands; the slice's length where it does not.
pub fn find(text: &[u8], byte: u8) -> usize
    ensures value { result ≡ index_of byte text.now }
    ensures within { result ≤ length text.now }
{
    text.iter().position(|b| *b == byte).unwrap_or(text.len())
}
