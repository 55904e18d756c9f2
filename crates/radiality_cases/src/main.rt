// What the live branches are in the cases on standard input. A case is a line 'LENGTH NAME', a frame text, a line feed, and a line 'CHANGE STATE'. An empty text
// stands for the feeder of the case before. CHANGE is a letter for a change of the records, a hyphen for none. STATE has a digit for each byte.
#![tactic(auto)]

mod changes;

use cases::unheeded::Unheeded;
use cases::{Cases, State, filled};
use changes::changed;
use frames::reader::read_stored;
use graph::form::Form;
use input::read_available;
use network::switch::ReconfigAlgorithm;
use network::topology::PowerNetwork;
use radiality::radiality::verify_radiality;
use std::io;

// `tree`, `loop BRANCH ISLANDS` or `islands COUNT`.
fn print_form(rt: &impl Print, form: Form) -> io::Result<()> {
    match form {
        Form::Tree => rt.println(" tree"),
        Form::Loop { branch, islands } => println!(rt; " loop {branch} {islands}"),
        Form::Islands(islands) => println!(rt; " islands {islands}"),
    }
}

// The line has the change and the state.
fn print_answer(rt: &impl Print, network: PowerNetwork, line: &[u8]) -> io::Result<()> {
    let [change, _, digits @ ..] = line else {
        return Ok(());
    };
    let state = State::of(digits);
    match verify_radiality(changed(network, *change), state.bytes()) {
        Ok(form) => print_form(rt, form),
        Err(refusal) => println!(rt; " {refusal}"),
    }
}

fn main(rt: HostRuntime) -> io::Result<()> {
    // Room for all cases.
    let mut room = filled::<458_752>(0);
    let n = read_available(&mut rt.stdin(), &mut room);
    let rt = Unheeded(&rt);
    let mut network = PowerNetwork::new(1.0, ReconfigAlgorithm::BranchExchange, 100);
    for case in Cases::of(&room[..n], 1) {
        rt.write_all(case.name)?;
        if !case.text.is_empty() {
            // As a stored text, so that it is the call that refuses a branch from a bus to itself. A text that is refused here is said to be no feeder: such a case is
            // wrongly made.
            match read_stored(case.text) {
                Ok(read) => network = read,
                Err(_) => rt.print(" no feeder")?,
            }
        }
        print_answer(&rt, network, case.line(0))?;
    }
    Ok(())
}
