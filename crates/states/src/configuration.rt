// Translated and changed from src/network/reconfiguration.rs of oxigrid. Copyright 2024-2026 COOLJAPAN OU (Team Kitasan), Apache License 2.0.
// States of the switches: their bytes, the base, refusal 10, and the branches that are live.
ghost use Rattle.std.specs.Prelude.{◌≡◌, not, ◌&&◌, [], leb};
ghost use Rattle.std.specs.List.{list_all};
ghost use Rattle.numbers.specs.UpTo.{table};
ghost use Rattle.network.specs.Answers.{answer_of};
ghost use Rattle.network.specs.Records.{records_of};
ghost use Rattle.states.specs.Configuration.{configuration_of};
ghost use Rattle.states.specs.Live.{check_state, open_on, live, base_state};
ghost use Rattle.states.specs.LiveLaws.{live_by};
ghost use Rattle.states.specs.OpenCounts.{open_count};

use network::branch::Branch;
use network::error::Refusal;
use network::switch::Switch;
use network::topology::PowerNetwork;

// A state of the switches: a byte for each, in list order, and closed beyond the listed ones. Bytes, and no enum of the two: so states come in and go out.
#[derive(Clone, Copy, Debug, PartialEq, Eq)]
pub struct NetworkConfiguration {
    pub switches: [u8; NetworkConfiguration::MAX_SWITCHES],
}

impl NetworkConfiguration {
    pub const MAX_SWITCHES: usize = PowerNetwork::MAX_SWITCHES;

    pub const CLOSED: u8 = 0;

    pub const OPEN: u8 = 1;

    // All switches closed.
    pub fn new() -> NetworkConfiguration
        ensures { result ≡ configuration_of [] }
    {
        NetworkConfiguration {
            switches: [NetworkConfiguration::CLOSED; NetworkConfiguration::MAX_SWITCHES],
        }
    }

    // The bytes of a state, of at most MAX_SWITCHES switches.
    pub fn of(state: &[u8]) -> NetworkConfiguration
        ensures { result ≡ configuration_of state.now }
    {
        let count = state.len().min(NetworkConfiguration::MAX_SWITCHES);
        let mut switches = NetworkConfiguration::new().switches;
        switches[..count].copy_from_slice(&state[..count]);
        NetworkConfiguration { switches }
    }
}

// Document 01's base: it opens exactly the normally open switches.
pub fn build_base_configuration(network: PowerNetwork) -> NetworkConfiguration
    ensures { result ≡ configuration_of (base_state (records_of network)) }
{
    let count = usize::from(network.switch_count).min(NetworkConfiguration::MAX_SWITCHES);
    let switches = network.switches;
    let mut configuration = NetworkConfiguration::new();
    for (i, switch) in switches[..count].iter().enumerate() {
        configuration.switches[i] = u8::from(switch.normally_open);
    }
    configuration
}

// Whether each byte is closed or open.
fn are_state_bytes(state: &[u8]) -> bool
    ensures { result ≡ list_all (λ b. leb b 1) state.now }
{
    state.iter().all(|b| *b <= NetworkConfiguration::OPEN)
}

// Refusal 10, at place 0 for the present or only state and 1 for the wanted one.
#[tactic(auto, using(crate::specs::Listed::state_judged))]
pub fn check_state(network: PowerNetwork, state: &[u8], place: u16) -> Result<(), Refusal>
    ensures { answer_of result ≡ check_state (records_of network) state.now place }
{
    if state.len() == usize::from(network.switch_count) && are_state_bytes(state) {
        Ok(())
    } else {
        Err(Refusal::State { which: place })
    }
}

// A branch is live when its status is 01 and no open switch is on it.
fn is_live(branch: Branch, open: bool) -> bool
    ensures { result ≡ (branch.status && not «open») }
{
    branch.status && !open
}

// A flag for each branch position: whether an open switch is on it.
fn open_branches(switches: &[Switch], state: &[u8]) -> [bool; PowerNetwork::MAX_BRANCHES]
    ensures { result ≡ table (open_on switches.now state.now) 512 }
{
    let mut opened = [false; PowerNetwork::MAX_BRANCHES];
    for (switch, byte) in switches.iter().zip(state) {
        let k = usize::from(switch.branch_idx);
        if *byte == NetworkConfiguration::OPEN && k < PowerNetwork::MAX_BRANCHES {
            opened[k] = true;
        }
    }
    opened
}

// A flag for each branch position: whether the branch is listed and live, from the flags of those with an open switch.
fn live_list(
    branches: &[Branch],
    opened: &[bool; PowerNetwork::MAX_BRANCHES],
) -> [bool; PowerNetwork::MAX_BRANCHES]
    ensures { result ≡ table (live_by branches.now opened.now) 512 }
{
    let count = branches.len().min(PowerNetwork::MAX_BRANCHES);
    let mut flags = [false; PowerNetwork::MAX_BRANCHES];
    for (k, branch) in branches[..count].iter().enumerate() {
        flags[k] = is_live(*branch, opened[k]);
    }
    flags
}

// A flag for each branch position: whether the branch is live in the state. The lists are taken out of the network first: lent from it, they make the compiler copy all of
// it, here and where it is handed over.
pub fn live_branches(
    network: PowerNetwork,
    configuration: NetworkConfiguration,
) -> [bool; PowerNetwork::MAX_BRANCHES]
    ensures { result ≡ table (live (records_of network) configuration.switches) 512 }
{
    let switch_count = usize::from(network.switch_count).min(PowerNetwork::MAX_SWITCHES);
    let branch_count = usize::from(network.branch_count).min(PowerNetwork::MAX_BRANCHES);
    let switches = network.switches;
    let branches = network.branches;
    let opened = open_branches(&switches[..switch_count], &configuration.switches);
    live_list(&branches[..branch_count], &opened)
}

// For each branch position how many of the switches on it are open in the state: counted, where `open_branches` notes whether there is one, and each is promised by a
// definition of its own.
pub fn open_counts(
    network: PowerNetwork,
    configuration: NetworkConfiguration,
) -> [u16; PowerNetwork::MAX_BRANCHES]
    ensures { result ≡ table (open_count (records_of network) configuration.switches) 512 }
{
    let n = usize::from(network.switch_count).min(PowerNetwork::MAX_SWITCHES);
    let switches = network.switches;
    let mut counts = [0u16; PowerNetwork::MAX_BRANCHES];
    for (switch, byte) in switches[..n].iter().zip(&configuration.switches) {
        let on = usize::from(switch.branch_idx);
        if *byte == NetworkConfiguration::OPEN && on < PowerNetwork::MAX_BRANCHES {
            counts[on] += 1;
        }
    }
    counts
}
