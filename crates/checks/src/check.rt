// Document 01: "Records handed over without text are checked as their lines would be", refusals 3 to 9 and 17.
ghost use Rattle.std.specs.Prelude.{◌≡◌, [], map, ◌+◌, ◌≤◌, List, length, get_or};
ghost use Rattle.network.specs.Answers.{answer_of, ◌and_then◌};
ghost use Rattle.network.specs.Check.{check_run, check_lines};
ghost use Rattle.network.specs.declared.bus.Bus.{Bus};
ghost use Rattle.network.specs.Limits.{Head, bus_id};
ghost use Rattle.network.specs.Faults.{bus_faults, branch_faults, switch_faults};
ghost use Rattle.ids.specs.PutIds.{Holding};
ghost use Rattle.network.specs.Records.{records_of};

use ids::rows::IdRows;
use network::branch::Branch;
use network::bus::Bus;
use network::error::Refusal;
use network::switch::{ReconfigAlgorithm, Switch};
use network::topology::PowerNetwork;
use refusals::record::{judge_branch, judge_bus, judge_head, judge_switch};

// A loop for each kind, since what stands by a record's side differs: the ids before a bus, the rows of all buses for a branch, ids, counts and ties before a switch.

// The branches in list order, the first at line `start`; the ids of bus_count buses are in rows. Own loops pass where the text is a stored one.
fn check_branch_list(
    branches: &[Branch],
    start: u16,
    bus_count: usize,
    rows: &IdRows,
    stored: bool,
) -> Result<(), Refusal>
    requires { (length branches.now ≤ 512) × (start ≤ 1000) }
    ensures { (buses : List Bus) → Holding bus_count (map bus_id buses) rows.now.ids rows.now.first rows.now.next
        → answer_of result ≡ check_run (λ before. branch_faults stored buses) [] start branches.now }
{
    for (at, branch) in branches.iter().enumerate() {
        let from = rows.position_of(bus_count, branch.from_bus);
        let to = rows.position_of(bus_count, branch.to_bus);
        let line = start + at as u16;
        judge_branch(*branch, from < bus_count, to < bus_count, stored, line)?;
    }
    Ok(())
}

// The buses in list order, the first at line 2, each id put into rows once its bus has passed; behind them the branches, whose ends are looked up in these rows.
fn check_buses_and_branches(buses: &[Bus], branches: &[Branch], stored: bool) -> Result<(), Refusal>
    requires { (length buses.now ≤ 256) × (length branches.now ≤ 512) }
    ensures { answer_of result ≡ (check_run bus_faults [] 2 buses.now
        and_then check_run (λ before. branch_faults stored buses.now) [] (2 + length buses.now) branches.now) }
{
    let count = buses.len();
    let mut rows = IdRows::new();
    for (at, bus) in buses.iter().enumerate() {
        let twice = rows.position_of(count, bus.id) < at;
        let line = 2 + at as u16;
        judge_bus(*bus, twice, line)?;
        rows.put(at, bus.id);
    }
    check_branch_list(branches, 2 + count as u16, count, &rows, stored)
}

// How many switches are counted on a branch position. From MAX_BRANCHES on there is no count.
fn switches_on(counted: &[u8], at: usize) -> u8
    ensures { result ≡ get_or counted.now at 0 }
{
    counted.get(at).copied().unwrap_or(0)
}

// The switches in list order, the first at line `start`, each id put into rows and each counted on its branch once it has passed. A branch position that is refused needs no count,
// and none grows past MAX_SWITCHES_ON_BRANCH.
fn check_switch_list(
    switches: &[Switch],
    start: u16,
    branch_count: u16,
    algorithm: ReconfigAlgorithm,
) -> Result<(), Refusal>
    requires { (length switches.now ≤ 512) × (start ≤ 1000) × (branch_count ≤ 512) }
    ensures { (h : Head) → h.branches ≡ branch_count → h.algorithm ≡ algorithm
        → answer_of result ≡ check_run (switch_faults h) [] start switches.now }
{
    let mut rows = IdRows::new();
    let mut counted = [0u8; PowerNetwork::MAX_BRANCHES];
    let mut ties = 0;
    for (at, switch) in switches.iter().enumerate() {
        let on = usize::from(switch.branch_idx);
        let twice = rows.position_of(switches.len(), switch.id) < at;
        let before = switches_on(&counted, on);
        let line = start + at as u16;
        judge_switch(*switch, branch_count, algorithm, twice, before, ties, line)?;
        rows.put(at, switch.id);
        counted[on] = before + 1;
        ties += u16::from(switch.normally_open);
    }
    Ok(())
}

// The first refusal of the records, head, buses, branches, switches. Branches from a bus to itself pass in a stored text alone. The network is copied behind the
// test of the head: lent from as it came, it would be copied wherever it is handed on.
pub fn check(network: PowerNetwork, stored: bool) -> Result<(), Refusal>
    ensures { answer_of result ≡ check_lines stored (records_of network) }
{
    judge_head(
        network.bus_count,
        network.branch_count,
        network.switch_count,
        network.base_mva,
        network.max_iterations,
    )?;
    let records = network;
    let buses = &records.buses[..usize::from(network.bus_count)];
    let branches = &records.branches[..usize::from(network.branch_count)];
    let switches = &records.switches[..usize::from(network.switch_count)];
    check_buses_and_branches(buses, branches, stored)?;
    let start = 2 + network.bus_count + network.branch_count;
    check_switch_list(switches, start, network.branch_count, network.algorithm)
}
