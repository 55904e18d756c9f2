// Document 02's supply, and with it the first test of every call; and the test of a stored text's records.
ghost use Rattle.std.specs.Prelude.{◌≡◌};
ghost use Rattle.network.specs.Answers.{accepted, answer_of};
ghost use Rattle.network.specs.Records.{records_of};
ghost use Rattle.network.specs.Check.{check_records};
ghost use Rattle.states.specs.Live.{base_state};
ghost use Rattle.feeders.specs.Feeder.{radial_in};
ghost use Rattle.feeders.specs.Supply.{left_if, check_as, check_network, check_stored};

use crate::feeder::graph_of;
use bfs::radial::is_radial;
use checks::check::check;
use network::error::Refusal;
use network::topology::PowerNetwork;
use own_loops::dropping::without_own_loops;
use states::configuration::{build_base_configuration, live_branches};

// The records whose base is judged: of a stored text, what the dropping leaves.
fn left_if(network: PowerNetwork, stored: bool) -> PowerNetwork
    requires { check_records (records_of network) ≡ accepted tt }
    ensures { records_of result ≡ left_if stored (records_of network) }
{
    if stored {
        return without_own_loops(network);
    }
    network
}

// Whether the base is radial.
fn base_is_radial(network: PowerNetwork) -> bool
    requires { check_records (records_of network) ≡ accepted tt }
    ensures { result ≡ radial_in (records_of network) (base_state (records_of network)) }
{
    let live = live_branches(network, build_base_configuration(network));
    is_radial(graph_of(network), live)
}

// The test of a text's records, stored or not: the records; then, where a supply is named, refusals 14 and 15 at the line behind those of the records. The base is looked at only if the bus is listed. The network is
// copied behind the test for a supply: handed on as it came, it would be copied at every call, with a supply or without.
pub fn check_as(network: PowerNetwork, stored: bool) -> Result<(), Refusal>
    ensures { answer_of result ≡ check_as stored (records_of network) }
{
    check(network, stored)?;
    let Some(supply) = network.supply else {
        return Ok(());
    };
    let line = 2 + network.bus_count + network.branch_count + network.switch_count;
    let fed = network;
    if fed.bus_index(supply).is_none() {
        return Err(Refusal::SupplyNotListed { line });
    }
    if !base_is_radial(left_if(fed, stored)) {
        return Err(Refusal::SupplyNotRadial { line });
    }
    Ok(())
}

// What every call tests first.
#[tactic(auto, unfolding(crate::specs::Supply::check_network))]
pub fn check_network(network: PowerNetwork) -> Result<(), Refusal>
    ensures { answer_of result ≡ check_network (records_of network) }
{
    check_as(network, false)
}

// The same of a stored text: branches from a bus to itself pass, and 15 is judged of what is left without them, at the place of the supply's line as it stands.
#[tactic(auto, unfolding(crate::specs::Supply::check_stored))]
pub fn check_stored(network: PowerNetwork) -> Result<(), Refusal>
    ensures { answer_of result ≡ check_stored (records_of network) }
{
    check_as(network, true)
}
