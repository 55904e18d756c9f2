// What a call counts for: the number that it answers, and 0 for a refusal.
ghost use Rattle.std.specs.Prelude.{◌≡◌, replicate, to_bits};
ghost use Rattle.std.specs.Float.{binary64};
ghost use Rattle.network.specs.Answers.{accepted, valued};
ghost use Rattle.network.specs.Records.{records_of};
ghost use Rattle.printing.specs.Lengths.{plan_length};
ghost use Rattle.frames.specs.Text.{read_text};
ghost use Rattle.graph.specs.Form.{form_number};
ghost use Rattle.feeders.specs.Feeder.{form_in};
ghost use Rattle.feeders.specs.StateCalls.{on_state};
ghost use Rattle.losses.specs.LossCall.{loss_call};
ghost use Rattle.plan.specs.Plan.{planned};
ghost use Rattle.controller.specs.Calls.{on_records};
ghost use Rattle.timing.specs.Rounds.{value_of, record_count, search_value};

use controller::answer::form_number;
use frames::reader::read_text;
use losses::evaluation::evaluate_config;
use network::topology::PowerNetwork;
use plan::planner::plan;
use printing::lengths::PLAN_LENGTH;
use radiality::radiality::verify_radiality;
use reconfiguration::solve::solve;
use states::configuration::NetworkConfiguration;

// How many records a text has.
pub(crate) fn reading(text: &[u8]) -> u64
    ensures { result ≡ value_of (on_records (read_text text.now) (λ N. accepted (record_count N))) }
{
    let Ok(network) = read_text(text) else {
        return 0;
    };
    u64::from(network.bus_count) + u64::from(network.branch_count) + u64::from(network.switch_count)
}

// What the live branches of a state are, as one number.
pub(crate) fn radiality(network: PowerNetwork, state: &[u8]) -> u64
    ensures { result ≡ value_of (valued form_number (on_state (records_of network) state.now (form_in (records_of network) state.now))) }
{
    verify_radiality(network, state).map_or(0, form_number)
}

// The bits of a loss.
pub(crate) fn loss(network: PowerNetwork, state: &[u8]) -> u64
    ensures { result ≡ value_of (valued (to_bits binary64) (loss_call (records_of network) state.now)) }
{
    let Ok(loss) = evaluate_config(network, state) else {
        return 0;
    };
    f64::to_bits(loss)
}

// How many pairs a plan has; the longest has room.
pub(crate) fn pairs(network: PowerNetwork, present: &[u8], wanted: &[u8]) -> u64
    ensures { result ≡ value_of (planned (records_of network) present.now wanted.now (replicate plan_length 0)).answer }
{
    let mut out = [0u8; PLAN_LENGTH];
    plan(network, present, wanted, &mut out).map_or(0, u64::from)
}

// The bits of the best loss that the network's search finds.
pub(crate) fn search(network: PowerNetwork) -> u64
    ensures { result ≡ value_of (search_value (records_of network)) }
{
    let mut best = [0u8; NetworkConfiguration::MAX_SWITCHES];
    let Ok(found) = solve(network, &mut best) else {
        return 0;
    };
    f64::to_bits(found.optimized_losses_mw)
}
