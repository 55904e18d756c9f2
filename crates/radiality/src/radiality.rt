// Translated and changed from src/network/reconfiguration.rs of oxigrid. Copyright 2024-2026 COOLJAPAN OU (Team Kitasan), Apache License 2.0.
// The radiality of a state as document 02 has it, a tree or what instead: the reference for every search and plan.
ghost use Rattle.std.specs.Prelude.{◌≡◌};
ghost use Rattle.network.specs.Records.{records_of};
ghost use Rattle.network.specs.Answers.{answer_of};
ghost use Rattle.feeders.specs.Feeder.{form_in};
ghost use Rattle.feeders.specs.StateCalls.{on_state};

use feeders::feeder::graph_of;
use feeders::supply::check_network;
use forms::form::form_of;
use graph::form::Form;
use network::error::Refusal;
use network::topology::PowerNetwork;
use states::configuration::{NetworkConfiguration, check_state, live_branches};

// What the live branches are. They are a tree where there are no buses; else where one less than the buses are live and all buses are reached.
pub fn verify_radiality(network: PowerNetwork, state: &[u8]) -> Result<Form, Refusal>
    ensures { answer_of result ≡ on_state (records_of network) state.now (form_in (records_of network) state.now) }
{
    check_network(network)?;
    check_state(network, state, 0)?;
    let live = live_branches(network, NetworkConfiguration::of(state));
    Ok(form_of(graph_of(network), live))
}
