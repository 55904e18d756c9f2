// Translated and changed from src/network/reconfiguration.rs of oxigrid. Copyright 2024-2026 COOLJAPAN OU (Team Kitasan), Apache License 2.0.
// Document 01's exhaustive search. `exhaustive_masks` goes through the masks of the source's `enumerate_radial_configs` and keeps the least radial state,
// where the source makes a list of the radial ones first.
ghost use Rattle.std.specs.Prelude.{◌≡◌, true, cond, Some, ℕ, ◌+◌, ◌<◌, ◌≤◌, ◌^◌, get_or, length, set};
ghost use Rattle.network.specs.Answers.{accepted, answer_of, valued};
ghost use Rattle.network.specs.Check.{check_records};
ghost use Rattle.states.specs.Configuration.{configuration_of};
ghost use Rattle.network.specs.Records.{Network, records_of};
ghost use Rattle.feeders.specs.Feeder.{radial_in};
ghost use Rattle.feeders.specs.FeederRows.{live_flags};
ghost use Rattle.searches.specs.Results.{result_of, solved_by};
ghost use Rattle.searches.specs.SearchValues.{found_of};
ghost use Rattle.searches.specs.Given.{Started};
ghost use Rattle.exhaustive.specs.Exhaustive.{tie_count, masked, Exhaustive, Least, no_mask, with_radial, try_mask, exhaustive, exhaustive_best, as_exhaustive};
ghost use Rattle.exhaustive.specs.ExhaustiveValues.{ties_of, opened_by, is_least, least_of, exhaustive_of, exhaustive_head};

use bfs::radial::is_radial;
use losses::loads::live_loss;
use network::error::Refusal;
use network::switch::{ReconfigAlgorithm, Switch};
use network::topology::PowerNetwork;
use searches::answer::{Found, ReconfigResult, answer_with, check_search};
use searches::start::{Start, start_of};
use states::configuration::{NetworkConfiguration, live_branches};

// A state with its loss.
#[derive(Clone, Copy)]
struct LeastState {
    configuration: NetworkConfiguration,
    loss: f64,
}

// The least radial state so far, where one was found yet, and how many radial states there were.
#[derive(Clone, Copy)]
struct ExhaustiveSearch {
    least: Option<LeastState>,
    radial_count: u16,
}

impl ExhaustiveSearch {
    // Before the first mask.
    #[tactic(auto, unfolding(crate::specs::ExhaustiveValues::exhaustive_of))]
    fn new() -> ExhaustiveSearch
        ensures { result ≡ exhaustive_of no_mask }
    {
        ExhaustiveSearch {
            least: None,
            radial_count: 0,
        }
    }

    // Is a radial state with this loss the least so far: the first, or strictly below the least before it?
    fn is_least(self, loss: f64) -> bool
        ensures { result ≡ is_least self.least loss }
    {
        self.least.is_none_or(|least| loss < least.loss)
    }

    // One radial state more: it is counted, and kept where it is the least.
    fn with_radial(mut self, state: LeastState) -> ExhaustiveSearch
        requires { self.radial_count < 65535 }
        ensures { (x : Exhaustive) (b : Least) → self ≡ exhaustive_of x → state ≡ least_of b → result ≡ exhaustive_of (with_radial x b) }
    {
        self.radial_count += 1;
        if self.is_least(state.loss) {
            self.least = Some(state);
        }
        self
    }
}

// The ties in list order: how many there are, and the branch of each. An array with a count, since there is no heap; the other entries are 0.
#[derive(Clone, Copy)]
struct Ties {
    count: usize,
    on: [u16; PowerNetwork::MAX_TIES],
}

impl Ties {
    // None.
    fn new() -> Ties
        ensures { (N : Network) → result ≡ ties_of N 0 }
    {
        Ties {
            count: 0,
            on: [0; PowerNetwork::MAX_TIES],
        }
    }

    // One more.
    fn with(mut self, on: u16) -> Ties
        requires { self.count < 10 }
        ensures { result ≡ record {
          count = self.count + 1;
          on = set self.on self.count on;
        } }
    {
        self.on[self.count] = on;
        self.count += 1;
        self
    }
}

// Document 01's tie is a switch that is normally open, be it operable or locked.
fn is_tie(switch: Switch) -> bool
    ensures { result ≡ switch.normally_open }
{
    switch.normally_open
}

// The state of a mask: bit i closes the i-th tie. A tie takes the lowest bit of those that are left; a section is closed.
fn masked(network: &PowerNetwork, mask: u16) -> NetworkConfiguration
    requires { network.now.switch_count ≤ 512 }
    ensures { result ≡ configuration_of (masked (records_of network.now) mask) }
{
    let count = usize::from(network.switch_count);
    let mut configuration = NetworkConfiguration::new();
    let mut rest = mask;
    for (i, switch) in network.switches[..count].iter().enumerate() {
        if is_tie(*switch) {
            configuration.switches[i] = u8::from(rest & 1 == 0);
            rest >>= 1;
        }
    }
    configuration
}

// The ties, of which there are at most ten.
fn find_ties(network: &PowerNetwork) -> Ties
    requires { (check_records (records_of network.now) ≡ accepted tt) × (tie_count (records_of network.now) ≤ 10) }
    ensures { result ≡ ties_of (records_of network.now) (tie_count (records_of network.now)) }
{
    let count = usize::from(network.switch_count);
    let mut ties = Ties::new();
    for switch in &network.switches[..count] {
        if is_tie(*switch) {
            ties = ties.with(switch.branch_idx);
        }
    }
    ties
}

// The live branches of a mask: those with every switch closed, without the branches of the ties whose bit is 0. A tie that is closed beside an open one
// makes nothing live.
fn masked_live(
    closed_live: [bool; PowerNetwork::MAX_BRANCHES],
    ties: Ties,
    mask: u16,
) -> [bool; PowerNetwork::MAX_BRANCHES]
    requires { (ties.count ≤ 10) × ((t : ℕ) → get_or ties.on t 0 < 512) }
    ensures { result ≡ opened_by ties mask closed_live }
{
    let mut live = closed_live;
    let mut rest = mask;
    for branch in &ties.on[..ties.count] {
        let on = usize::from(*branch);
        if rest & 1 == 0 {
            live[on] = false;
        }
        rest >>= 1;
    }
    live
}

// How many masks there are: each tie is open or closed.
fn count_masks(ties: usize) -> u16
    requires { ties ≤ 10 }
    ensures { result ≡ 2 ^ ties }
{
    1u16 << ties
}

// The base with its loss.
fn base_of(start: &Start) -> LeastState
    ensures { result ≡ record {
      configuration = start.now.base;
      loss = start.now.loss;
    } }
{
    LeastState {
        configuration: start.base,
        loss: start.loss,
    }
}

// After mask 0, which leaves the base as it is.
fn with_base(start: &Start) -> ExhaustiveSearch
    ensures { (n : PowerNetwork) → length n.buses ≡ 256 → Started n start.now → result ≡ exhaustive_of (try_mask (records_of n) no_mask 0) }
{
    let none = ExhaustiveSearch::new();
    if start.radial {
        return none.with_radial(base_of(start));
    }
    none
}

// One mask more, whose state is radial.
fn with_mask(
    network: &PowerNetwork,
    start: &Start,
    search: ExhaustiveSearch,
    live: [bool; PowerNetwork::MAX_BRANCHES],
    mask: u16,
) -> ExhaustiveSearch
    requires { Started network.now start.now × (length network.now.buses ≡ 256) × (search.radial_count < 65535)
        × (live ≡ live_flags (records_of network.now) (masked (records_of network.now) mask))
        × (radial_in (records_of network.now) (masked (records_of network.now) mask) ≡ true) }
    ensures { (x : Exhaustive) → search ≡ exhaustive_of x → result ≡ exhaustive_of (try_mask (records_of network.now) x mask) }
{
    let loss = live_loss(
        start.graph,
        start.loads,
        network.branches,
        network.base_mva,
        live,
    );
    let configuration = masked(network, mask);
    search.with_radial(LeastState {
        configuration,
        loss,
    })
}

// Document 01's exhaustive search, by rising masks. Their live branches follow from those with every switch closed: only a radial mask has its state made and
// its loss taken.
fn exhaustive_masks(network: &PowerNetwork, start: &Start) -> ExhaustiveSearch
    requires { Started network.now start.now × (network.now.algorithm ≡ ReconfigAlgorithm.Exhaustive) × (length network.now.buses ≡ 256) }
    ensures { result ≡ exhaustive_of (exhaustive (records_of network.now)) }
{
    let closed_live = live_branches(*network, NetworkConfiguration::new());
    let ties = find_ties(network);
    let mut search = with_base(start);
    for mask in 1..count_masks(ties.count) {
        let live = masked_live(closed_live, ties, mask);
        if is_radial(start.graph, live) {
            search = with_mask(network, start, search, live, mask);
        }
    }
    search
}

// What the exhaustive search finds, the base where no mask is radial: it counts the radial states, and it converged.
fn search(network: &PowerNetwork, start: &Start) -> Found
    requires { Started network.now start.now × (network.now.algorithm ≡ ReconfigAlgorithm.Exhaustive) × (length network.now.buses ≡ 256) }
    ensures { result ≡ found_of (records_of network.now) (exhaustive_best (records_of network.now)) }
{
    let done = exhaustive_masks(network, start);
    let best = done.least.unwrap_or(base_of(start));
    Found {
        configuration: best.configuration,
        loss: best.loss,
        iterations: done.radial_count,
        converged: true,
    }
}

// The exhaustive search of a feeder that asks for it: so it has at most ten ties. The network is lent from here on: by value each function would keep a copy of its
// own on the stack. A lent one doesn't say how long its arrays are, so the clauses do.
fn solve_as_exhaustive(network: &PowerNetwork, out: &mut [u8]) -> Result<ReconfigResult, Refusal>
    requires { (network.now.algorithm ≡ ReconfigAlgorithm.Exhaustive) × (length network.now.buses ≡ 256) }
    ensures { record { answer = valued result_of (answer_of result); out = out.new } ≡ solved_by exhaustive_best (records_of network.now) out.old }
{
    check_search(*network, out.len())?;
    let start = start_of(*network);
    let found = search(network, &start);
    Ok(answer_with(*network, start, found, out))
}

// The feeder with method 02 in its head.
fn as_exhaustive(network: PowerNetwork) -> PowerNetwork
    ensures { result ≡ exhaustive_head network }
{
    PowerNetwork {
        algorithm: ReconfigAlgorithm::Exhaustive,
        ..network
    }
}

// Document 01's exhaustive search of a feeder, whichever search its head asks for: the best state's bytes at the front of the slice, and the result.
// The feeder is tested as one that asks for this search, which wants at most ten ties: one that does is handed on as it is, and only of another a copy is made.
pub fn exhaustive_solve(network: PowerNetwork, out: &mut [u8]) -> Result<ReconfigResult, Refusal>
    ensures { record { answer = valued result_of (answer_of result); out = out.new }
        ≡ solved_by exhaustive_best (as_exhaustive (records_of network)) out.old }
{
    if let ReconfigAlgorithm::Exhaustive = network.algorithm {
        return solve_as_exhaustive(&network, out);
    }
    solve_as_exhaustive(&as_exhaustive(network), out)
}
