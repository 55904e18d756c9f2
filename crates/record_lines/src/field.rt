// Fields of a frame: "u16 of 4 digits, f64 bits of 16, bytes of 2".
ghost use Rattle.std.specs.Prelude.{◌≡◌, take, drop};
ghost use Rattle.std.specs.Float.{binary64};
ghost use Rattle.std.specs.Float.Ieee.{of_bits};
ghost use Rattle.lines.specs.Hex.{number};

use lines::hex::number_at;
use std::num::f64_from_bits_with_nan;

// The byte at a position of a row of fields.
pub(crate) fn byte(f: &[u8], at: usize) -> u8
    ensures { result ≡ number (take 2 (drop at f.now)) }
{
    number_at(f, at, 2) as u8
}

// The u16 at a position of a row of fields.
pub(crate) fn word(f: &[u8], at: usize) -> u16
    ensures { result ≡ number (take 4 (drop at f.now)) }
{
    number_at(f, at, 4) as u16
}

// The f64 at a position of a row of fields, with the bits that stand there. All patterns of a NaN make the same one: no range has it.
pub(crate) fn float(f: &[u8], at: usize) -> f64
    ensures { result ≡ of_bits binary64 (number (take 16 (drop at f.now))) }
{
    f64_from_bits_with_nan(number_at(f, at, 16))
}
