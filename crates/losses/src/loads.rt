// What a loss takes of a feeder beside its graph: the loads by bus position, and where the supply stands. And the loss of live branches with it.
ghost use Rattle.std.specs.Prelude.{◌≡◌};
ghost use Rattle.losses.specs.ListLoss.{loads_at};
ghost use Rattle.losses.specs.LiveLoss.{supply_at, loads_of, drawn_graph_for, live_loss};

use crate::estimate::compute_losses_estimate;
use drawing::drawing::drawn_from;
use graph::rows::Graph;
use network::branch::Branch;
use network::bus::{Bus, Power};
use network::topology::PowerNetwork;

// The loads by bus position; and the supply's position, where one is named.
#[derive(Clone, Copy)]
pub struct Loads {
    pub pd: [Power; PowerNetwork::MAX_BUSES],
    pub supply_at: Option<u8>,
}

// The loads of buses, in their order. An array of buses is handed over, so that the network is not copied for its loads. By a loop: `map` of an array goes over a second
// array of options.
fn loads_at(buses: [Bus; PowerNetwork::MAX_BUSES]) -> [Power; PowerNetwork::MAX_BUSES]
    ensures { result ≡ loads_at buses }
{
    let mut loads = [Power(0.0); PowerNetwork::MAX_BUSES];
    for i in 0..PowerNetwork::MAX_BUSES {
        loads[i] = buses[i].pd;
    }
    loads
}

// The position of the supply bus, where one is named; 0 where none is listed with its id. The network is copied behind the test for a supply: without one it is not copied.
fn supply_at(network: PowerNetwork) -> Option<u8>
    ensures { result ≡ supply_at network }
{
    let Some(id) = network.supply else {
        return None;
    };
    let fed = network;
    match fed.bus_index(id) {
        Some(at) => Some(at as u8),
        None => Some(0),
    }
}

// The loads by bus position, and the supply's: its id is resolved once for all losses of a call.
pub fn loads_of(network: PowerNetwork) -> Loads
    ensures { result ≡ loads_of network }
{
    Loads {
        pd: loads_at(network.buses),
        supply_at: supply_at(network),
    }
}

// The graph as a loss takes it: where there is a supply, drawn by the order of a walk from there; in a tree that is away from it.
fn drawn_for(graph: Graph, live: [bool; Graph::MAX_BRANCHES], supply_at: Option<u8>) -> Graph
    ensures { result ≡ drawn_graph_for graph live supply_at }
{
    match supply_at {
        Some(supply) => drawn_from(graph, live, supply),
        None => graph,
    }
}

// The loss with these branches live, in megawatts; with a supply they must be radial for it to be document 02's. Every loss of a feeder is taken here, by the call and by the searches. The branches are copied behind the drawing:
// handed on as they came, they would be copied at every loss; the compiler leaves this copy out.
pub fn live_loss(
    graph: Graph,
    loads: Loads,
    branches: [Branch; PowerNetwork::MAX_BRANCHES],
    base_mva: f64,
    live: [bool; Graph::MAX_BRANCHES],
) -> f64
    ensures { result ≡ live_loss graph loads branches base_mva live }
{
    let drawn = drawn_for(graph, live, loads.supply_at);
    let pd = loads.pd;
    let resistances = branches;
    compute_losses_estimate(drawn, pd, resistances, base_mva, live)
}
