// Numbers that all crates use: positions as indexes, and the lesser of a count and a size.
#![tactic(auto)]

ghost use Rattle.std.specs.Prelude.{◌≡◌, ◌<◌, min};

// A bus position as an index into an array of 256.
pub fn wide8(position: u8) -> usize
    ensures { (result ≡ position) × (result < 256) }
{
    position as usize
}

// An id, a count or a branch position as an index.
pub fn wide16(number: u16) -> usize
    ensures { (result ≡ number) × (result < 65536) }
{
    number as usize
}

// A count, or the size of an array that has room for fewer.
pub fn at_most(count: usize, size: usize) -> usize
    ensures { result ≡ min count size }
{
    if count < size {
        return count;
    }
    size
}
