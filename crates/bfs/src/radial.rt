// Translated and changed from src/network/reconfiguration.rs of oxigrid. Copyright 2024-2026 COOLJAPAN OU (Team Kitasan), Apache License 2.0.
// Document 01's radiality.
ghost use Rattle.std.specs.Prelude.{◌≡◌};
ghost use Rattle.numbers.specs.Counts.{count};
ghost use Rattle.graph.specs.Rows.{flag, row_radial};

use crate::walk::walk;
use graph::rows::Graph;

// How many branches are live.
fn live_count(live: &[bool; Graph::MAX_BRANCHES], branch_count: u16) -> u16
    ensures { result ≡ count (flag live.now) branch_count }
{
    let n = usize::from(branch_count).min(Graph::MAX_BRANCHES);
    live[..n].iter().map(|is_live| u16::from(*is_live)).sum()
}

// True for zero buses; else one live branch less than buses, and all buses reached.
pub fn is_radial(graph: Graph, live: [bool; Graph::MAX_BRANCHES]) -> bool
    ensures { result ≡ row_radial graph live }
{
    let n = graph.bus_count;
    if n == 0 {
        return true;
    }
    if live_count(&live, graph.branch_count) != n - 1 {
        return false;
    }
    walk(graph, live, 0).count == n
}
