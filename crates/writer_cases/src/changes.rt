// What the letter of a case does to the records once they are read: A to P give them a fault (O, an eleventh tie, with method 02 or a supply only), but for M, a second
// switch on a branch; X is a third. Q and R put records behind the counts that would be refused if they were listed, R with fewer listed than were read, S lists
// more buses and switches, Y and Z a branch more, with them and alone; T gives the first of each kind values from the ends of their ranges. U makes 3 the number of the supply where one
// is named, V names a supply where none is, W names none.
use cases::faults::{branch, bus, three_on_a_branch, tie};
use network::branch::Branch;
use network::switch::Switch;
use network::topology::PowerNetwork;

pub(crate) fn changed(mut network: PowerNetwork, change: u8) -> PowerNetwork {
    match change {
        b'A' => network.max_iterations = 1001,
        b'B' => network.bus_count = 257,
        b'C' => network.branch_count = 513,
        b'D' => network.switch_count = 65_535,
        b'E' => network.base_mva = f64::NAN,
        b'F' => network.buses[1] = bus(1, 1.0),
        b'G' => network.buses[2] = bus(3, 1_000_000.5),
        b'H' => network.buses[2] = bus(3, f64::NAN),
        b'I' => network.branches[1] = branch(2, 9, 0.5),
        b'J' => network.branches[1] = branch(2, 3, -1.0),
        b'K' => network.branches[1] = branch(9, 3, f64::NAN),
        b'L' => network.switches[1] = tie(10, 2),
        b'M' => network.switches[1] = tie(11, 1),
        b'N' => network.switches[1] = tie(11, 3),
        b'O' => network.switches[10] = tie(11, 10),
        b'P' => return two_faults(network),
        b'Q' => return unlisted(network),
        b'R' => return unlisted(with_counts(network, 2, 2, 1)),
        b'S' => return with_counts(network, 4, 3, 3),
        b'T' => return with_ends(network),
        b'U' => network.supply = network.supply.map(|_| 3),
        b'V' => network.supply = Some(network.supply.unwrap_or(0)),
        b'W' => network.supply = None,
        b'X' => return three_on_a_branch(network),
        b'Y' => return with_counts(network, 4, 4, 3),
        b'Z' => return with_counts(network, 3, 4, 2),
        _ => {}
    }
    network
}

// In the third bus and in the first branch.
fn two_faults(mut network: PowerNetwork) -> PowerNetwork {
    network.branches[0] = branch(1, 9, 0.5);
    network.buses[2] = bus(1, 1.0);
    network
}

fn with_counts(
    mut network: PowerNetwork,
    buses: u16,
    branches: u16,
    switches: u16,
) -> PowerNetwork {
    network.bus_count = buses;
    network.branch_count = branches;
    network.switch_count = switches;
    network
}

// The first record behind each count: the id of the first bus again, with a load that is no number; a branch from a bus that may not be listed, with r below zero;
// the first switch again.
fn unlisted(mut network: PowerNetwork) -> PowerNetwork {
    let buses = usize::from(network.bus_count);
    let branches = usize::from(network.branch_count);
    let switches = usize::from(network.switch_count);
    let first_id = network.buses[0].id;
    let first_switch = network.switches[0];
    if let Some(behind) = network.buses.get_mut(buses) {
        *behind = bus(first_id, f64::NAN);
    }
    if let Some(behind) = network.branches.get_mut(branches) {
        *behind = branch(9, 1, -1.0);
    }
    if let Some(behind) = network.switches.get_mut(switches) {
        *behind = first_switch;
    }
    network
}

// The base is the least there may be, the load minus zero, r the least subnormal number; the branch goes out of service, the switch is a locked section.
fn with_ends(mut network: PowerNetwork) -> PowerNetwork {
    network.base_mva = 0.001;
    network.max_iterations = 1000;
    network.buses[0] = bus(1, -0.0);
    network.branches[0] = Branch {
        from_bus: 3,
        to_bus: 1,
        r: 5e-324,
        status: false,
    };
    network.switches[0] = Switch {
        id: 65_535,
        branch_idx: 0,
        normally_open: false,
        can_operate: false,
    };
    network
}
