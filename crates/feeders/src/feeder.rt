// A feeder's records as a graph: ids are resolved to positions once.
ghost use Rattle.std.specs.Prelude.{◌≡◌, List, ℕ, ◌≤◌, length};
ghost use Rattle.network.specs.declared.branch.Branch.{Branch};
ghost use Rattle.ids.specs.Ids.{id_rows};
ghost use Rattle.feeders.specs.FeederRows.{end_at, ends_of, feeder_graph};

use graph::rows::Graph;
use ids::rows::{IdRows, bus_rows};
use network::branch::Branch;
use network::topology::PowerNetwork;

// The position of the bus with this id among n buses whose ids are in rows, and 0 where none has it.
fn end_at(rows: &IdRows, n: usize, id: u16) -> u8
    requires { n ≤ 256 }
    ensures { (l : List ℕ) → n ≡ length l → rows.now ≡ id_rows l → result ≡ end_at l id }
{
    let at = rows.position_of(n, id);
    if at < n { at as u8 } else { 0 }
}

// The position of one end of each branch; behind the branches stands 0.
fn ends_of<F: Fn(Branch) -> u16>(
    branches: &[Branch],
    end: F,
    rows: &IdRows,
    n: usize,
) -> [u8; Graph::MAX_BRANCHES]
    requires few { (length branches.now ≤ 512) × (n ≤ 256) }
    requires callable { F.IsAlwaysCallable end }
    ensures { (id : Branch → ℕ) → ((b : Branch) (r : ℕ) → F.post end b r → r ≡ id b) → (l : List ℕ) → n ≡ length l → rows.now ≡ id_rows l
        → result ≡ ends_of id l branches.now (length branches.now) }
{
    let mut ends = [0; Graph::MAX_BRANCHES];
    for (k, branch) in branches.iter().enumerate() {
        ends[k] = end_at(rows, n, end(*branch));
    }
    ends
}

// The graph of a feeder's listed buses and branches. An end that is no listed bus stands at position 0.
pub fn graph_of(network: PowerNetwork) -> Graph
    ensures { result ≡ feeder_graph network }
{
    let bus_count = usize::from(network.bus_count);
    let rows = bus_rows(network.buses, bus_count);
    let n = bus_count.min(PowerNetwork::MAX_BUSES);
    let m = usize::from(network.branch_count).min(PowerNetwork::MAX_BRANCHES);
    let branches = network.branches;
    let listed = &branches[..m];
    let from = ends_of(listed, |branch| branch.from_bus, &rows, n);
    let to = ends_of(listed, |branch| branch.to_bus, &rows, n);
    Graph::new(network.bus_count, network.branch_count, from, to)
}
