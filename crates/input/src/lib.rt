// Standard input, read by the programs, or what another reader has.
#![tactic(auto)]

ghost use Rattle.std.specs.Prelude.{IfOk, IfErr};
ghost use Rattle.input.specs.Counts.{IsPrefixLen};

use std::io::Read;

// A read failed, behind so many bytes.
#[derive(Clone, Copy, Debug, PartialEq, Eq)]
pub struct ReadFailed {
    pub count: usize,
}

// Reads to the input's end, or until the room is full. How much there is to read, and what, is left to the reader: a count is promised that the room has. No `for`, since
// each read brings as many bytes as it does, and the library's `read_exact` does not say how many came before a failure.
pub fn read_input<R: Read>(reader: &mut R, room: &mut [u8]) -> Result<usize, ReadFailed>
    ensures read { IfOk result (λ count. IsPrefixLen count room.new) }
    ensures failed { IfErr result (λ e. IsPrefixLen e.count room.new) }
{
    let mut count = 0;
    while count < room.len() {
        match reader.read(&mut room[count..]) {
            Ok(0) => break,
            Ok(more) => count += more,
            Err(_) => return Err(ReadFailed { count }),
        }
    }
    Ok(count)
}

// The same for a program that goes on with what came before a failure.
pub fn read_available<R: Read>(reader: &mut R, room: &mut [u8]) -> usize
    ensures { IsPrefixLen result room.new }
{
    match read_input(reader, room) {
        Ok(count) => count,
        Err(failed) => failed.count,
    }
}
