// Reads the feeders and states on standard input and prints the bits of each loss. A case is a line 'LENGTH NAME', a frame text, a line feed, and a line 'CHANGE STATE'.
// CHANGE is A for 1,001 iterations, F for a tie in place of the eleventh switch or W for no supply, which the records get once they are read, or a hyphen for none. STATE
// has a digit for each byte.
#![tactic(auto)]

use cases::faults::with_fault;
use cases::unheeded::Unheeded;
use cases::{Cases, LentCase, State, filled};
use frames::reader::read_stored;
use input::read_available;
use losses::evaluation::evaluate_config;
use network::topology::PowerNetwork;
use std::io;

// What the records get once they are read: a fault, with which a text would not be, or no supply.
fn changed(mut network: PowerNetwork, change: u8) -> PowerNetwork {
    if change == b'W' {
        network.supply = None;
    }
    with_fault(network, change, 9)
}

// No loss is below zero or a NaN: such a one would print no bits.
fn print_loss(rt: &impl Print, loss: f64) -> io::Result<()> {
    if loss >= 0.0 {
        let bits = f64::to_bits(loss);
        return println!(rt; " {bits:016x}");
    }
    rt.println(" ")
}

// The line has the change and the state. The text is read as a stored one, so that it is the call that refuses a branch from a bus to itself. A text that is refused here is
// said to be no feeder: such a case is wrongly made.
fn print_answer(rt: &impl Print, case: LentCase) -> io::Result<()> {
    let [change, _, digits @ ..] = case.line(0) else {
        return Ok(());
    };
    let Ok(network) = read_stored(case.text) else {
        return rt.println(" no feeder");
    };
    let state = State::of(digits);
    match evaluate_config(changed(network, *change), state.bytes()) {
        Ok(loss) => print_loss(rt, loss),
        Err(refusal) => println!(rt; " {refusal}"),
    }
}

fn main(rt: HostRuntime) -> io::Result<()> {
    // Room for all cases.
    let mut room = filled::<327_680>(0);
    let n = read_available(&mut rt.stdin(), &mut room);
    let rt = Unheeded(&rt);
    for case in Cases::of(&room[..n], 1) {
        rt.write_all(case.name)?;
        print_answer(&rt, case)?;
    }
    Ok(())
}
