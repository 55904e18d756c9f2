// What the letter of a case does to the records once they are read: A to M give them a fault, N leaves some unlisted.
use cases::faults::{branch, bus, three_on_a_branch, tie, with_fault};
use network::topology::PowerNetwork;

pub(crate) fn changed(mut network: PowerNetwork, change: u8) -> PowerNetwork {
    match change {
        b'B' => network.bus_count = 257,
        b'C' => network.branch_count = 513,
        b'D' => network.switch_count = 513,
        b'E' => network.base_mva = 0.0,
        b'G' => network.buses[1] = bus(1, 1.0),
        b'H' => network.buses[2] = bus(3, 2_000_000.0),
        b'I' => network.branches[0] = branch(1, 9, 1.0),
        b'J' => network.branches[1] = branch(1, 2, -1.0),
        b'K' => network.switches[0] = tie(10, 3),
        b'L' => network.switches[1] = tie(10, 2),
        b'M' => return three_on_a_branch(network),
        b'N' => return unlisted(network),
        _ => return with_fault(network, change, 11),
    }
    network
}

// The last three records of each kind are no longer listed. The first of them becomes one that would be refused.
fn unlisted(mut network: PowerNetwork) -> PowerNetwork {
    let buses = network.bus_count.saturating_sub(3);
    let branches = network.branch_count.saturating_sub(3);
    let switches = network.switch_count.saturating_sub(3);
    let first_bus = network.buses[0];
    let first_switch = network.switches[0];
    if let Some(bus) = network.buses.get_mut(usize::from(buses)) {
        *bus = first_bus;
    }
    if let Some(behind) = network.branches.get_mut(usize::from(branches)) {
        *behind = branch(1, 9, -1.0);
    }
    if let Some(switch) = network.switches.get_mut(usize::from(switches)) {
        *switch = first_switch;
    }
    network.bus_count = buses;
    network.branch_count = branches;
    network.switch_count = switches;
    network
}
