// Document 02, Point 7: a feeder without its branches from a bus to itself, which are dropped with their switches.
ghost use Rattle.std.specs.Prelude.{◌≡◌, ◌≤◌, ◌++◌, Option, length, drop};
ghost use Rattle.std.specs.List.{filter_map};
ghost use Rattle.network.specs.Limits.{is_own_loop};
ghost use Rattle.own_loops.specs.OwnLoops.{value_without};
ghost use Rattle.own_loops.specs.NewPositions.{new_positions, placed};

use network::branch::Branch;
use network::switch::Switch;
use network::topology::PowerNetwork;

// Whether a branch goes from a bus to itself.
pub fn is_own_loop(branch: Branch) -> bool
    ensures { result ≡ is_own_loop branch }
{
    branch.from_bus == branch.to_bus
}

// For each branch position the new one: none for a branch that is dropped.
fn new_positions(branches: &[Branch]) -> [Option<u16>; PowerNetwork::MAX_BRANCHES]
    requires { length branches.now ≤ 512 }
    ensures { result ≡ new_positions branches.now }
{
    let mut positions = [None; PowerNetwork::MAX_BRANCHES];
    let mut kept = 0;
    for (k, branch) in branches.iter().enumerate() {
        if !is_own_loop(*branch) {
            positions[k] = Some(kept);
            kept += 1;
        }
    }
    positions
}

// A switch on its branch's new position: none where the branch is dropped, or beyond all branches.
fn placed(positions: &[Option<u16>; PowerNetwork::MAX_BRANCHES], switch: Switch) -> Option<Switch>
    ensures { result ≡ placed positions.now switch }
{
    let branch_idx = (*positions.get(usize::from(switch.branch_idx))?)?;
    Some(Switch {
        branch_idx,
        ..switch
    })
}

// What `place` makes of the listed records, in their order, at the front of `left`, and how many these are.
fn keep<T: Copy, F: Fn(T) -> Option<T>>(listed: &[T], place: F, left: &mut [T]) -> usize
    requires callable { F.IsAlwaysCallable place }
    requires room { length listed.now ≤ length left.old }
    ensures few { result ≤ length listed.now }
    ensures made { (make : T → Option T) → ((x : T) (r : Option T) → F.post place x r → r ≡ make x)
        → (left.new ≡ filter_map make listed.now ++ drop result left.old) × (result ≡ length (filter_map make listed.now)) }
{
    let mut kept = 0;
    for record in listed {
        if let Some(record) = place(*record) {
            left[kept] = record;
            kept += 1;
        }
    }
    kept
}

// The feeder without its branches from a bus to itself and without their switches; head, buses and supply stay.
pub fn without_own_loops(network: PowerNetwork) -> PowerNetwork
    ensures { result ≡ value_without network }
{
    let branch_count = usize::from(network.branch_count).min(PowerNetwork::MAX_BRANCHES);
    let switch_count = usize::from(network.switch_count).min(PowerNetwork::MAX_SWITCHES);
    // Taken out of the network first: lent from it, the whole network would be copied.
    let all_branches = network.branches;
    let all_switches = network.switches;
    let listed_branches = &all_branches[..branch_count];
    let listed_switches = &all_switches[..switch_count];
    let empty = PowerNetwork::new(network.base_mva, network.algorithm, network.max_iterations);
    let mut branches = empty.branches;
    let mut switches = empty.switches;
    let positions = new_positions(listed_branches);
    let branches_left = keep(
        listed_branches,
        |branch| (!is_own_loop(branch)).then_some(branch),
        &mut branches,
    );
    let switches_left = keep(
        listed_switches,
        |switch| placed(&positions, switch),
        &mut switches,
    );
    PowerNetwork {
        branches,
        switches,
        branch_count: branches_left as u16,
        switch_count: switches_left as u16,
        ..network
    }
}
