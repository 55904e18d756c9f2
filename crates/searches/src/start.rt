// Translated and changed from src/network/reconfiguration.rs of oxigrid. Copyright 2024-2026 COOLJAPAN OU (Team Kitasan), Apache License 2.0.
// Where every search starts.
ghost use Rattle.std.specs.Prelude.{◌≡◌};
ghost use Rattle.searches.specs.SearchValues.{start_of};

use bfs::radial::is_radial;
use feeders::feeder::graph_of;
use graph::rows::Graph;
use losses::loads::{Loads, live_loss, loads_of};
use network::topology::PowerNetwork;
use states::configuration::{NetworkConfiguration, build_base_configuration, live_branches};

// Where every search starts: the feeder's rows and loads, and its base with the radiality and the loss.
#[derive(Clone, Copy)]
pub struct Start {
    pub graph: Graph,
    pub loads: Loads,
    pub base: NetworkConfiguration,
    pub radial: bool,
    pub loss: f64,
}

// Where every search of this network starts; made once a call. Of a network that has passed its test that is document 01's base with its radiality and loss (specs/StartLaws).
pub fn start_of(network: PowerNetwork) -> Start
    ensures { result ≡ start_of network }
{
    let graph = graph_of(network);
    let loads = loads_of(network);
    let base = build_base_configuration(network);
    let live = live_branches(network, base);
    let radial = is_radial(graph, live);
    let loss = live_loss(graph, loads, network.branches, network.base_mva, live);
    Start {
        graph,
        loads,
        base,
        radial,
        loss,
    }
}
