// What the letter of a case puts into records that were read: records of few fields, and the faults that several programs try.
ghost use Rattle.std.specs.Prelude.{◌≡◌, true, set};
ghost use Rattle.network.specs.declared.bus.Bus.{Bus};
ghost use Rattle.network.specs.declared.branch.Branch.{Branch};
ghost use Rattle.network.specs.declared.switch.Switch.{Switch};
ghost use Rattle.cases.specs.Faults.{tie, with_fault, three_on_a_branch};

use network::branch::Branch;
use network::bus::{Bus, Power};
use network::switch::Switch;
use network::topology::PowerNetwork;

pub fn bus(id: u16, mw: f64) -> Bus
    ensures { result ≡ record { id = id; pd = record { 0 = mw } } }
{
    Bus { id, pd: Power(mw) }
}

// A branch in service.
pub fn branch(from_bus: u16, to_bus: u16, r: f64) -> Branch
    ensures { result ≡ record { r = r; from_bus = from_bus; to_bus = to_bus; status = true } }
{
    Branch {
        from_bus,
        to_bus,
        r,
        status: true,
    }
}

pub fn tie(id: u16, branch_idx: u16) -> Switch
    ensures { result ≡ tie id branch_idx }
{
    Switch {
        id,
        branch_idx,
        normally_open: true,
        can_operate: true,
    }
}

// A is 1,001 iterations, F a tie with this id in place of the eleventh switch. Another letter is no fault.
pub fn with_fault(mut network: PowerNetwork, letter: u8, id: u16) -> PowerNetwork
    ensures { result ≡ with_fault letter id network }
{
    match letter {
        b'A' => network.max_iterations = 1001,
        b'F' => network.switches[10] = tie(id, 10),
        _ => {}
    }
    network
}

// The first switch is on branch 1; the second joins it there, and a third is listed.
pub fn three_on_a_branch(mut network: PowerNetwork) -> PowerNetwork
    ensures { result ≡ three_on_a_branch network }
{
    network.switches[1] = tie(11, 1);
    network.switches[2] = tie(12, 1);
    network.switch_count = 3;
    network
}
