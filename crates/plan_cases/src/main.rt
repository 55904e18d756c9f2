// The planner: the answer and the lent slice of each case on standard input. A case is a line 'LENGTH NAME', a frame text, a line feed, and three
// lines: 'CHANGE PRESENT', WANTED and SLICE. An empty text stands for the feeder of the case before. CHANGE is A for 1,001 iterations or F for a tie in
// place of the eleventh switch, which the records get once they are read, or a hyphen for none. PRESENT and WANTED have a digit for each byte of the
// states, SLICE has a dot for each byte of the lent slice.
#![tactic(auto)]

use cases::faults::with_fault;
use cases::unheeded::Unheeded;
use cases::{Cases, DOT, LentCase, State, filled};
use frames::reader::read_stored;
use input::read_available;
use network::switch::ReconfigAlgorithm;
use network::topology::PowerNetwork;
use plan::planner::plan;
use std::io;

// Bytes of the longest slice.
const ROOM: usize = 4096;

// The first line has the change and the present state. The slice stands between brackets, its line feeds as they are.
fn print_plan(rt: &impl Print, network: PowerNetwork, case: LentCase) -> io::Result<()> {
    let [change, _, digits @ ..] = case.line(0) else {
        return Ok(());
    };
    let present = State::of(digits);
    let wanted = State::of(case.line(1));
    let room = case.line(2).len().min(ROOM);
    let mut out = filled::<ROOM>(DOT);
    let network = with_fault(network, *change, 11);
    match plan(network, present.bytes(), wanted.bytes(), &mut out[..room]) {
        Ok(pairs) => print!(rt; " {pairs}")?,
        Err(refusal) => print!(rt; " refused {refusal}")?,
    }
    rt.print(" [")?;
    rt.write_all(&out[..room])?;
    rt.println("]")
}

fn main(rt: HostRuntime) -> io::Result<()> {
    // Room for all cases.
    let mut room = filled::<655_360>(0);
    let n = read_available(&mut rt.stdin(), &mut room);
    let rt = Unheeded(&rt);
    let mut network = PowerNetwork::new(1.0, ReconfigAlgorithm::BranchExchange, 100);
    for case in Cases::of(&room[..n], 3) {
        rt.write_all(case.name)?;
        if !case.text.is_empty() {
            // As a stored text, so that it is the call that refuses a branch from a bus to itself. A text that is refused here is said to be no feeder: such a case is
            // wrongly made.
            match read_stored(case.text) {
                Ok(read) => network = read,
                Err(_) => rt.print(" no feeder")?,
            }
        }
        print_plan(&rt, network, case)?;
    }
    Ok(())
}
