// Translated and changed from src/network/reconfiguration.rs of oxigrid. Copyright 2024-2026 COOLJAPAN OU (Team Kitasan), Apache License 2.0.
// The loss of live branches on a graph: the load downstream of each, and its term, added by rising position.
ghost use Rattle.std.specs.Prelude.{◌≡◌, ◌≤◌};
ghost use Rattle.graph.specs.Walk.{walk_by};
ghost use Rattle.lists.specs.Lists.{listed, bus_load};
ghost use Rattle.losses.specs.Loss.{term_of};
ghost use Rattle.losses.specs.ListLoss.{megawatts_of, list_total, list_loss, NetLoss};

use graph::rows::Graph;
use lists::lists::{LiveLists, live_lists, walk_load};
use network::branch::Branch;
use network::bus::Power;
use network::topology::PowerNetwork;
use numbers::{at_most, wide16};

// The loads as plain numbers: an array of these can be lent.
fn megawatts(loads: [Power; PowerNetwork::MAX_BUSES]) -> [f64; PowerNetwork::MAX_BUSES]
    ensures { result ≡ megawatts_of loads }
{
    let mut mw = [0.0; PowerNetwork::MAX_BUSES];
    for i in 0..PowerNetwork::MAX_BUSES {
        mw[i] = loads[i].0;
    }
    mw
}

// The load downstream of a branch: of the buses that a walk reaches from its to bus without entering its from bus. Lists and loads are lent: no walk copies them.
fn downstream_load_mw<'a>(
    at: &'a [u16; Graph::MAX_BUSES + 1],
    near: &'a [u8; Graph::MAX_HALVES],
    mw: &[f64; PowerNetwork::MAX_BUSES],
    to: u8,
    from: u8,
) -> Power
    ensures { result ≡ record { 0 = bus_load mw.now (walk_by (listed at.now near.now) to from) } }
{
    Power(walk_load(at, near, mw, to, from))
}

// The loss in a live branch, in megawatts, of the load behind it. Dividing by base_mva makes the load per unit.
fn branch_term(branch: Branch, load: Power, base_mva: f64) -> f64
    ensures { result ≡ term_of branch.r load.0 base_mva }
{
    let p = load.0 / base_mva;
    branch.r * p * p * base_mva
}

// The loss in the live ones among the first n branches, by rising position.
fn total_loss(
    lists: LiveLists,
    far: &[u8; Graph::MAX_HALVES],
    mw: &[f64; PowerNetwork::MAX_BUSES],
    live: &[bool; Graph::MAX_BRANCHES],
    branches: [Branch; PowerNetwork::MAX_BRANCHES],
    base_mva: f64,
    n: usize,
) -> f64
    requires { n ≤ 512 }
    ensures { result ≡ list_total lists far.now mw.now live.now branches base_mva n }
{
    let mut total = 0.0;
    for k in 0..n {
        if live[k] {
            let to = far[2 * k];
            let from = far[2 * k + 1];
            let load = downstream_load_mw(&lists.at, &lists.near, mw, to, from);
            total += branch_term(branches[k], load, base_mva);
        }
    }
    total
}

// The loss of a state, in megawatts: live branches by rising position. The neighbours by live branches are listed once, and each walk reads the lists; on every graph
// of Graph::new with at most MAX_BUSES buses whose ends are buses of it that is the loss by document 01's scan.
pub fn compute_losses_estimate(
    graph: Graph,
    loads: [Power; PowerNetwork::MAX_BUSES],
    branches: [Branch; PowerNetwork::MAX_BRANCHES],
    base_mva: f64,
    live: [bool; Graph::MAX_BRANCHES],
) -> f64
    ensures { (result ≡ list_loss graph loads branches base_mva live) × NetLoss graph loads branches base_mva live result }
{
    if graph.bus_count == 0 {
        return 0.0;
    }
    let lists = live_lists(graph, &live);
    let far = graph.far;
    let mw = megawatts(loads);
    let n = at_most(wide16(graph.branch_count), Graph::MAX_BRANCHES);
    total_loss(lists, &far, &mw, &live, branches, base_mva, n)
}
