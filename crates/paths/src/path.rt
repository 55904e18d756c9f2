// Translated and changed from src/network/reconfiguration.rs of oxigrid. Copyright 2024-2026 COOLJAPAN OU (Team Kitasan), Apache License 2.0.
// The path that a walk finds between two buses: each bus has the branch by which it was reached, in place of the source's cloned paths.
ghost use Rattle.std.specs.Prelude.{◌≡◌, List, reverse, ℕ, ◌≤◌};
ghost use Rattle.graph.specs.Walk.{Visit, back, across};
ghost use Rattle.graph.specs.Rows.{walked, row_net, row_path, row_ends_path, path_of};
ghost use Rattle.paths.specs.Ways.{ways_by};

use bfs::walk::walk;
use graph::rows::Graph;
use graph::walks::{PathBranches, Walk};

// For each bus the branch by which a walk reached it: the first visit of a bus stands.
fn ways_of(walk: &Walk) -> [Option<u16>; Graph::MAX_BUSES]
    requires { walk.now.count ≤ 256 }
    ensures { (o : List Visit) → walk.now ≡ walked o → result ≡ ways_by o }
{
    let n = usize::from(walk.count);
    let mut ways = [None; Graph::MAX_BUSES];
    for (x, k) in walk.bus[..n].iter().zip(&walk.by[..n]) {
        let at = usize::from(*x);
        ways[at] = ways[at].or(Some(*k));
    }
    ways
}

// The from bus and the to bus of branch k. Beyond the branches that a graph has room for both are bus 0.
fn ends_of(graph: &Graph, k: u16) -> (u8, u8)
    ensures from { result.0 ≡ (row_net graph.now).from k }
    ensures to { result.1 ≡ (row_net graph.now).to k }
{
    let half = 2 * usize::from(k);
    let from = graph.far.get(half + 1).copied().unwrap_or(0);
    let to = graph.far.get(half).copied().unwrap_or(0);
    (from, to)
}

// The other end of branch k, seen from bus u.
#[tactic(auto, unfolding(graph::specs::Walk::across))]
fn across(graph: &Graph, k: u16, u: u8) -> u8
    ensures { result ≡ across (row_net graph.now) k u }
{
    let (from, to) = ends_of(graph, k);
    if from == u { to } else { from }
}

// The branches that lead from bus b back to start, MAX_BUSES at most. A bus that was not reached has branch 0.
fn way_back(graph: &Graph, ways: &[Option<u16>; Graph::MAX_BUSES], start: u8, b: u8) -> PathBranches
    ensures { (o : List Visit) → ways.now ≡ ways_by o → result ≡ path_of (back (row_net graph.now) o start 256 b) }
{
    let mut branch = [0u16; Graph::MAX_BUSES];
    let mut at = b;
    for i in 0..Graph::MAX_BUSES {
        if at == start {
            return PathBranches {
                count: i as u16,
                branch,
            };
        }
        let k = ways[usize::from(at)].unwrap_or(0);
        branch[i] = k;
        at = across(graph, k, at);
    }
    PathBranches {
        count: Graph::MAX_BUSES as u16,
        branch,
    }
}

// A list of branches turned round.
fn turned(list: PathBranches) -> PathBranches
    requires { list.count ≤ 256 }
    ensures { (l : List ℕ) → list ≡ path_of l → result ≡ path_of (reverse l) }
{
    let mut branch = list.branch;
    branch[..usize::from(list.count)].reverse();
    PathBranches {
        count: list.count,
        branch,
    }
}

// The branches of the path that a walk finds, beginning at bus from: none where the buses are the same or to is not reached.
fn bfs_path(graph: &Graph, live: &[bool; Graph::MAX_BRANCHES], from: u8, to: u8) -> PathBranches
    ensures { result ≡ path_of (row_path graph.now live.now from to) }
{
    let ways = ways_of(&walk(*graph, *live, from));
    if ways[usize::from(to)].is_some() {
        return turned(way_back(graph, &ways, from, to));
    }
    PathBranches {
        count: 0,
        branch: [0; Graph::MAX_BUSES],
    }
}

// The path between the ends of branch k, beginning at its from bus. Beyond the branches that a graph has room for both ends are bus 0, so the path is empty.
pub fn path_of_ends(graph: Graph, live: [bool; Graph::MAX_BRANCHES], k: u16) -> PathBranches
    ensures { result ≡ path_of (row_ends_path graph live k) }
{
    if usize::from(k) >= Graph::MAX_BRANCHES {
        return PathBranches {
            count: 0,
            branch: [0; Graph::MAX_BUSES],
        };
    }
    let (from, to) = ends_of(&graph, k);
    bfs_path(&graph, &live, from, to)
}
