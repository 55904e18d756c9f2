// Bytes, and numbers in upper-case hexadecimal, written at the front of a lent slice. What stands behind them stays, and a slice too short stays as it is.
ghost use Rattle.std.specs.Prelude.{◌≡◌, [], ◌∷◌, ◌++◌, ◌<◌};
ghost use Rattle.lines.specs.Hex.{digit};
ghost use Rattle.slices.specs.Written.{written, last_digits};

// Bytes at the front of a slice.
#[tactic(auto, using(crate::specs::WrittenLaws::written_room, crate::specs::WrittenLaws::written_short))]
pub fn write_bytes(out: &mut [u8], bytes: &[u8])
    ensures { out.new ≡ written bytes.now out.old }
{
    if out.len() < bytes.len() {
        return;
    }
    out[..bytes.len()].copy_from_slice(bytes);
}

// The digit for a number below 16.
#[tactic(auto, unfolding(lines::specs::Hex::digit))]
fn digit(n: u8) -> u8
    requires { n < 16 }
    ensures { result ≡ digit n }
{
    if n < 10 { b'0' + n } else { b'A' + (n - 10) }
}

// The last digits of a number, so many, at the front of a slice: the last one first.
pub fn write_digits(out: &mut [u8], width: usize, n: u64)
    ensures { out.new ≡ written (last_digits width n) out.old }
{
    if out.len() < width {
        return;
    }
    let mut rest = n;
    // By index, since of bytes that are written through `iter_mut().rev()` a proof knows only how many they are.
    for i in (0..width).rev() {
        out[i] = digit((rest % 16) as u8);
        rest /= 16;
    }
}

// A line of so many digits, and its line feed.
#[tactic(auto, using(crate::proofs::Remaining::line_short, crate::proofs::Remaining::line_ended))]
pub fn write_line(out: &mut [u8], width: u8, n: u64)
    ensures { out.new ≡ written (last_digits width n ++ (10 ∷ [])) out.old }
{
    let end = usize::from(width);
    if out.len() < end + 1 {
        return;
    }
    write_digits(out, end, n);
    out[end] = b'\n';
}
