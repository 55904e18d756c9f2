// Translated and changed from src/network/reconfiguration.rs of oxigrid. Copyright 2024-2026 COOLJAPAN OU (Team Kitasan), Apache License 2.0.
// Document 01's branch exchange. Its background is Merlin and Back 1975.
ghost use Rattle.std.specs.Prelude.{◌≡◌, true, false, cond, not, ◌&&◌, ◌<◌, ◌≤◌, eqb, length, take, set};
ghost use Rattle.std.specs.Float.{binary64};
ghost use Rattle.std.specs.Float.Ieee.{lt, sub};
ghost use Rattle.network.specs.Answers.{accepted, answer_of, valued};
ghost use Rattle.network.specs.Check.{check_records};
ghost use Rattle.network.specs.Records.{records_of};
ghost use Rattle.graph.specs.Rows.{row_ends_path, path_of};
ghost use Rattle.numbers.specs.Choose.{first_some};
ghost use Rattle.numbers.specs.Constants.{billionth};
ghost use Rattle.searches.specs.Results.{result_of, solved_by};
ghost use Rattle.searches.specs.SearchValues.{found_of};
ghost use Rattle.searches.specs.States.{state_of};
ghost use Rattle.searches.specs.Given.{Started, Held};
ghost use Rattle.exchange.specs.Exchange.{seen, trial, round_of, exchange, exchange_best};
ghost use Rattle.exchange.specs.ExchangeValues.{sections_of, row_swap, row_trial, trial_of, exchange_of};
ghost use Rattle.exchange.specs.ExchangeTrials.{InRound};

use bfs::radial::is_radial;
use graph::rows::Graph;
use graph::walks::PathBranches;
use losses::loads::live_loss;
use network::error::Refusal;
use network::switch::Switch;
use network::topology::PowerNetwork;
use paths::path::path_of_ends;
use searches::answer::{Found, ReconfigResult, answer_with, check_search};
use searches::start::{Start, start_of};
use states::configuration::{NetworkConfiguration, live_branches, open_counts};

// A state with its loss: one that was tried, or that with which a round begins.
#[derive(Clone, Copy)]
struct Trial {
    configuration: NetworkConfiguration,
    loss: f64,
}

// Where the exchange stands after some rounds.
#[derive(Clone, Copy)]
struct BranchExchange {
    current: Trial,
    rounds: u16,
}

// Is this an operable section switch?
fn is_section(switch: Switch) -> bool
    ensures { result ≡ (not switch.normally_open && switch.can_operate) }
{
    !switch.normally_open && switch.can_operate
}

// For each branch the position of its first operable section switch.
fn sections_of(network: &PowerNetwork) -> [Option<u16>; PowerNetwork::MAX_BRANCHES]
    requires { check_records (records_of network.now) ≡ accepted tt }
    ensures { result ≡ sections_of (records_of network.now) }
{
    let mut sections = [None; PowerNetwork::MAX_BRANCHES];
    for i in 0..network.switch_count {
        let switch = network.switches[usize::from(i)];
        let on = usize::from(switch.branch_idx);
        if is_section(switch) {
            sections[on] = sections[on].or(Some(i));
        }
    }
    sections
}

// The branches that a closed tie on this branch would make a loop with: the path from its from bus to its to bus.
fn find_loop_branches_closed_tie(
    graph: Graph,
    live: [bool; PowerNetwork::MAX_BRANCHES],
    branch: u16,
) -> PathBranches
    ensures { result ≡ path_of (row_ends_path graph live branch) }
{
    path_of_ends(graph, live, branch)
}

// Does a round see the switch, a tie that is operable and still open?
fn is_seen(switch: Switch, state: u8) -> bool
    ensures { result ≡ (switch.normally_open && (switch.can_operate && eqb state 1)) }
{
    switch.normally_open && switch.can_operate && state == NetworkConfiguration::OPEN
}

// Does closing an open switch make its branch live? It does where the branch is in service and no other switch on it is open.
fn makes_live(in_service: bool, open_count: u16) -> bool
    ensures { result ≡ (in_service && eqb open_count 1) }
{
    in_service && open_count == 1
}

// A trial improves when its loss is below current − 1e-9.
fn improves(loss: f64, current: f64) -> bool
    ensures { result ≡ lt loss (sub binary64 current billionth) }
{
    loss < current - 1e-9
}

// The live branches after a swap: the tie's where closing it makes it live, and not the section's.
fn swapped_live(
    live: &[bool; PowerNetwork::MAX_BRANCHES],
    closed: usize,
    made_live: bool,
    opened: usize,
) -> [bool; PowerNetwork::MAX_BRANCHES]
    requires { (closed < 512) × (opened < 512) }
    ensures { result ≡ set (set live.now closed made_live) opened false }
{
    let mut swapped = *live;
    swapped[closed] = made_live;
    swapped[opened] = false;
    swapped
}

// The configuration after a swap: the tie closed, and then the section open.
fn swapped(configuration: NetworkConfiguration, tie: usize, section: usize) -> NetworkConfiguration
    requires { (tie < 512) × (section < 512) }
    ensures { result ≡ record { switches = set (set configuration.switches tie 0) section 1 } }
{
    let mut swapped = configuration;
    swapped.switches[tie] = NetworkConfiguration::CLOSED;
    swapped.switches[section] = NetworkConfiguration::OPEN;
    swapped
}

// What a round lends to its trials: the feeder with its sections, and the state with which it began, with the live branches and how many open switches each branch has.
#[derive(Clone, Copy)]
struct Round<'a> {
    network: &'a PowerNetwork,
    start: &'a Start,
    sections: &'a [Option<u16>; PowerNetwork::MAX_BRANCHES],
    current: &'a Trial,
    live: [bool; PowerNetwork::MAX_BRANCHES],
    counts: [u16; PowerNetwork::MAX_BRANCHES],
}

impl Round<'_> {
    // The section of branch k, where it is closed and the swap with it radial: with the tie closed these branches are live.
    #[tactic(auto, unfolding(crate::specs::ExchangeValues::row_swap, crate::specs::ExchangeValues::row_swap_with))]
    fn swap_with(&self, live: &[bool; PowerNetwork::MAX_BRANCHES], k: u16) -> Option<u16>
        ensures { result ≡ row_swap self.now.start.now.graph self.now.sections.now self.now.current.now.configuration.switches live.now k }
    {
        let on = usize::from(k);
        let sections = self.sections;
        let section = sections.get(on).copied().flatten()?;
        let current = self.current;
        let byte = current
            .configuration
            .switches
            .get(usize::from(section))
            .copied()
            .unwrap_or(NetworkConfiguration::OPEN);
        if byte != NetworkConfiguration::CLOSED {
            return None;
        }
        let mut swapped = *live;
        swapped[on] = false;
        is_radial(self.start.graph, swapped).then_some(section)
    }

    // The first section along a path that a tie can be swapped with.
    fn first_swap(&self, live: &[bool; PowerNetwork::MAX_BRANCHES], path: &[u16]) -> Option<u16>
        ensures { result ≡ first_some (row_swap self.now.start.now.graph self.now.sections.now self.now.current.now.configuration.switches live.now) path.now }
    {
        // No `find_map`: the library says of its answer no function of the list that it went over.
        for k in path {
            let found = self.swap_with(live, *k);
            if found.is_some() {
                return found;
            }
        }
        None
    }

    // The section that a tie on this branch is swapped with: the first along its loop. Beside another open switch a closed tie does not make its branch live.
    fn try_tie(&self, branch: u16, made_live: bool) -> Option<u16>
        requires { branch < 512 }
        ensures { result ≡ row_trial self.now.start.now.graph self.now.sections.now self.now.current.now.configuration.switches self.now.live branch made_live }
    {
        let path = find_loop_branches_closed_tie(self.start.graph, self.live, branch);
        let mut closed = self.live;
        closed[usize::from(branch)] = made_live;
        self.first_swap(&closed, &path.branch[..usize::from(path.count)])
    }

    // The trial of switch i, a tie that the round sees.
    fn trial(&self, i: usize) -> Option<Trial>
        requires { InRound self.now × (i < self.now.network.now.switch_count)
            × (seen (records_of self.now.network.now) (state_of self.now.network.now self.now.current.now.configuration) i ≡ true) }
        ensures { let N = records_of self.now.network.now in
            result ≡ trial_of N (trial N (state_of self.now.network.now self.now.current.now.configuration) i) }
    {
        let switch = self.network.switches[i];
        let on = usize::from(switch.branch_idx);
        let made_live = makes_live(self.network.branches[on].status, self.counts[on]);
        let section = usize::from(self.try_tie(switch.branch_idx, made_live)?);
        let opened = usize::from(self.network.switches[section].branch_idx);
        let live = swapped_live(&self.live, on, made_live, opened);
        Some(Trial {
            configuration: swapped(self.current.configuration, i, section),
            loss: live_loss(
                self.start.graph,
                self.start.loads,
                self.network.branches,
                self.network.base_mva,
                live,
            ),
        })
    }
}

// A round: the last improving trial among the switches in list order, each tried from the state as the round found it. One that improves takes the place of the one before, better or not.
// The network is lent, so that a round keeps no copy of it.
fn branch_exchange_step(
    network: &PowerNetwork,
    start: &Start,
    sections: &[Option<u16>; PowerNetwork::MAX_BRANCHES],
    current: &Trial,
) -> Option<Trial>
    requires { Started network.now start.now × (sections.now ≡ sections_of (records_of network.now)) × Held network.now current.now.configuration
        × (length network.now.buses ≡ 256) × (length network.now.branches ≡ 512) }
    ensures { result ≡ trial_of (records_of network.now) (round_of (records_of network.now) (state_of network.now current.now.configuration) current.now.loss) }
{
    let round = Round {
        network,
        start,
        sections,
        current,
        live: live_branches(*network, current.configuration),
        counts: open_counts(*network, current.configuration),
    };
    let mut last = None;
    for i in 0..usize::from(network.switch_count) {
        // Tested here: a call clears what it has room for, and most switches are no open ties.
        if is_seen(network.switches[i], current.configuration.switches[i]) {
            if let Some(trial) = round.trial(i) {
                if improves(trial.loss, current.loss) {
                    last = Some(trial);
                }
            }
        }
    }
    last
}

// Document 01's exchange, from the base. Every round counts; a round without an improving trial ends the search.
fn branch_exchange_rounds(network: PowerNetwork, start: &Start) -> BranchExchange
    requires { Started network start.now }
    ensures { result ≡ exchange_of (exchange (records_of network)) }
{
    let sections = sections_of(&network);
    let mut current = Trial {
        configuration: start.base,
        loss: start.loss,
    };
    for round in 0..network.max_iterations {
        let Some(trial) = branch_exchange_step(&network, start, &sections, &current) else {
            return BranchExchange {
                current,
                rounds: round + 1,
            };
        };
        current = trial;
    }
    BranchExchange {
        current,
        rounds: network.max_iterations,
    }
}

// What the exchange finds.
fn search(network: PowerNetwork, start: &Start) -> Found
    requires { Started network start.now }
    ensures { result ≡ found_of (records_of network) (exchange_best (records_of network)) }
{
    let done = branch_exchange_rounds(network, start);
    Found {
        configuration: done.current.configuration,
        loss: done.current.loss,
        iterations: done.rounds,
        converged: done.rounds < network.max_iterations,
    }
}

// Document 01's exchange of a feeder, whichever search its head asks for: the best state's bytes at the front of the slice, and the result.
pub fn branch_exchange_solve(
    network: PowerNetwork,
    out: &mut [u8],
) -> Result<ReconfigResult, Refusal>
    ensures { record { answer = valued result_of (answer_of result); out = out.new } ≡ solved_by exchange_best (records_of network) out.old }
{
    check_search(network, out.len())?;
    let start = start_of(network);
    let found = search(network, &start);
    Ok(answer_with(network, start, found, out))
}
