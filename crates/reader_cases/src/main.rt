// Reads the frame texts on standard input and prints each one's verdict. A case is a line 'LENGTH NAME', the text, and a line feed.
#![tactic(auto)]

use cases::unheeded::Unheeded;
use cases::{Cases, LentCase, filled};
use frames::reader::read_text;
use input::read_available;
use std::io;

fn print_case(rt: &impl Print, case: LentCase) -> io::Result<()> {
    rt.write_all(case.name)?;
    match read_text(case.text) {
        Ok(_) => rt.println(" accepted"),
        Err(refusal) => println!(rt; " {refusal}"),
    }
}

fn main(rt: HostRuntime) -> io::Result<()> {
    // Room for all cases.
    let mut room = filled::<622_592>(0);
    let n = read_available(&mut rt.stdin(), &mut room);
    let rt = Unheeded(&rt);
    for case in Cases::of(&room[..n], 0) {
        print_case(&rt, case)?;
    }
    Ok(())
}
