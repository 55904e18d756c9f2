// Calls that `feeder` does not show: what each case on standard input answers, and the lent slice as the call leaves it. The questions of tests/oracle are
// such cases.
#![tactic(auto)]

mod calls;
mod output;

use cases::unheeded::Unheeded;
use cases::{Cases, filled};
use input::read_available;
use std::io;

fn main(rt: HostRuntime) -> io::Result<()> {
    // Room for all cases.
    let mut room = filled::<393_216>(0);
    let n = read_available(&mut rt.stdin(), &mut room);
    let rt = Unheeded(&rt);
    for case in Cases::of(&room[..n], 3) {
        rt.write_all(case.name)?;
        calls::print_call(&rt, case)?;
    }
    Ok(())
}
