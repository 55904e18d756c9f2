// Translated and changed from src/network/reconfiguration.rs of oxigrid. Copyright 2024-2026 COOLJAPAN OU (Team Kitasan), Apache License 2.0.
// What a search tests first, and how it answers what it found.
ghost use Rattle.std.specs.Prelude.{◌≡◌, take};
ghost use Rattle.network.specs.Answers.{accepted, answer_of, ◌and_then◌};
ghost use Rattle.network.specs.Records.{records_of};
ghost use Rattle.feeders.specs.Supply.{check_network};
ghost use Rattle.printing.specs.Calls.{check_room};
ghost use Rattle.slices.specs.Written.{written};
ghost use Rattle.searches.specs.Results.{reduction, result_of};
ghost use Rattle.searches.specs.SearchValues.{answer_with};

use crate::start::Start;
use feeders::supply::check_network;
use forms::form::form_of;
use graph::form::Form;
use network::error::Refusal;
use network::topology::PowerNetwork;
use slices::writer::write_bytes;
use states::configuration::{NetworkConfiguration, live_branches};

// What is answered beside the best state.
#[derive(Clone, Copy)]
pub struct ReconfigResult {
    pub form: Form,
    pub base_losses_mw: f64,
    pub optimized_losses_mw: f64,
    pub loss_reduction_pct: f64,
    pub n_iterations: u16,
    pub converged: bool,
}

// What a search found.
#[derive(Clone, Copy)]
pub struct Found {
    pub configuration: NetworkConfiguration,
    pub loss: f64,
    pub iterations: u16,
    pub converged: bool,
}

// A search's call tests the network, then whether a slice of this length has a byte for each switch.
pub fn check_search(network: PowerNetwork, room: usize) -> Result<(), Refusal>
    ensures { answer_of result ≡ (check_network (records_of network) and_then check_room network.switch_count room) }
{
    check_network(network)?;
    let count = usize::from(network.switch_count);
    if room < count {
        return Err(Refusal::Room);
    }
    Ok(())
}

// By how many per cent the best loss is below the base's.
fn reduction(base: f64, best: f64) -> f64
    ensures { result ≡ reduction base best }
{
    if base > 1e-12 {
        return (base - best) / base * 100.0;
    }
    0.0
}

// The bytes of so many switches at the front of a slice.
fn write_state(best: NetworkConfiguration, switch_count: u16, out: &mut [u8])
    ensures { out.new ≡ written (take switch_count best.switches) out.old }
{
    let count = usize::from(switch_count).min(NetworkConfiguration::MAX_SWITCHES);
    write_bytes(out, &best.switches[..count]);
}

// What was found is answered: its state, a byte for each switch at the front of the slice, and the result beside it. After `check_search`, with the start of the same
// network, that is the search's call (specs/SearchLaws, search_answered).
pub fn answer_with(
    network: PowerNetwork,
    start: Start,
    found: Found,
    out: &mut [u8],
) -> ReconfigResult
    ensures { record { answer = accepted (result_of result); out = out.new } ≡ answer_with network start found out.old }
{
    let best = found.configuration;
    let form = form_of(start.graph, live_branches(network, best));
    write_state(best, network.switch_count, out);
    ReconfigResult {
        form,
        base_losses_mw: start.loss,
        optimized_losses_mw: found.loss,
        loss_reduction_pct: reduction(start.loss, found.loss),
        n_iterations: found.iterations,
        converged: found.converged,
    }
}
