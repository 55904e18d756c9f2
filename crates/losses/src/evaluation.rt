// Translated and changed from src/network/reconfiguration.rs of oxigrid. Copyright 2024-2026 COOLJAPAN OU (Team Kitasan), Apache License 2.0.
// The loss of a state of a feeder: the call and its refusals.
ghost use Rattle.std.specs.Prelude.{◌≡◌};
ghost use Rattle.network.specs.Answers.{answer_of};
ghost use Rattle.network.specs.Records.{records_of};
ghost use Rattle.graph.specs.Rows.{row_radial};
ghost use Rattle.losses.specs.LossCall.{judge_fed, loss_call};

use crate::loads::{live_loss, loads_of};
use bfs::radial::is_radial;
use feeders::feeder::graph_of;
use feeders::supply::check_network;
use graph::rows::Graph;
use network::error::Refusal;
use network::topology::PowerNetwork;
use states::configuration::{NetworkConfiguration, check_state, live_branches};

// Refusal 11 of the loss call: with a supply the live branches must be radial.
fn check_fed(
    supply: Option<u16>,
    graph: Graph,
    live: [bool; PowerNetwork::MAX_BRANCHES],
) -> Result<(), Refusal>
    ensures { answer_of result ≡ judge_fed supply (row_radial graph live) }
{
    if supply.is_some() && !is_radial(graph, live) {
        return Err(Refusal::NotRadial { which: 0 });
    }
    Ok(())
}

// The loss of a state, in MW. Without a supply it need not be radial.
pub fn evaluate_config(network: PowerNetwork, state: &[u8]) -> Result<f64, Refusal>
    ensures { answer_of result ≡ loss_call (records_of network) state.now }
{
    check_network(network)?;
    check_state(network, state, 0)?;
    let live = live_branches(network, NetworkConfiguration::of(state));
    let graph = graph_of(network);
    check_fed(network.supply, graph, live)?;
    let loads = loads_of(network);
    Ok(live_loss(graph, loads, network.branches, network.base_mva, live))
}
