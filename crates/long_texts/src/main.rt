// Texts of half a megabyte, of one character each: digits without a line feed, line feeds alone, and a character that is no digit.
#![tactic(auto)]

use cases::filled;
use cases::unheeded::Unheeded;
use frames::reader::read_text;
use std::io;

fn print_verdict(rt: &impl Print, character: u8) -> io::Result<()> {
    match read_text(&filled::<524_288>(character)) {
        Ok(_) => rt.println("accepted"),
        Err(refusal) => rt.println(refusal),
    }
}

fn main(rt: HostRuntime) -> io::Result<()> {
    let rt = Unheeded(&rt);
    for character in [b'0', b'\n', 255] {
        print_verdict(&rt, character)?;
    }
    Ok(())
}
