// Translated and changed from src/network/reconfiguration.rs of oxigrid. Copyright 2024-2026 COOLJAPAN OU (Team Kitasan), Apache License 2.0.
// Document 01's tabu search.
ghost use Rattle.std.specs.Prelude.{◌≡◌, true, false, not, ◌&&◌, ◌<◌, eqb, length, set};
ghost use Rattle.std.specs.Prelude.{Option, Some};
ghost use Rattle.network.specs.Answers.{accepted, answer_of, valued};
ghost use Rattle.network.specs.Check.{check_records};
ghost use Rattle.states.specs.Live.{base_state};
ghost use Rattle.network.specs.Records.{Network, records_of};
ghost use Rattle.feeders.specs.Feeder.{radial_in};
ghost use Rattle.searches.specs.Results.{solved_by, result_of};
ghost use Rattle.searches.specs.SearchValues.{found_of};
ghost use Rattle.searches.specs.Given.{Started, Base};
ghost use Rattle.numbers.specs.IfSome.{IfSome};
ghost use Rattle.tabu.specs.Tabu.{Move, Tabu, best_move, after_move, tabu_start, tabu, tabu_best};
ghost use Rattle.tabu.specs.TabuValues.{candidate_of, lesser_candidate, allows, seen, toggled_in, tabu_of, Stands};
ghost use Rattle.tabu.specs.TabuLaws.{MoveFrom};

use crate::tabu_list::TabuList;
use bfs::radial::is_radial;
use losses::loads::live_loss;
use network::error::Refusal;
use network::switch::Switch;
use network::topology::PowerNetwork;
use searches::answer::{Found, ReconfigResult, answer_with, check_search};
use searches::start::{Start, start_of};
use states::configuration::{NetworkConfiguration, live_branches, open_counts};

// A move that can be made: the state after it, its loss, and the id of the switch that it moves.
#[derive(Clone, Copy)]
struct Candidate {
    configuration: NetworkConfiguration,
    loss: f64,
    moved: u16,
}

// Where the tabu search stands after some rounds. Its state's radiality and loss are carried along: they are not worked out again.
#[derive(Drop)]
struct TabuSearch {
    configuration: NetworkConfiguration,
    radial: bool,
    loss: f64,
    best: NetworkConfiguration,
    best_loss: f64,
    barred: TabuList,
    ended: bool,
}

// One switch moved: open to closed, closed to open.
#[tactic(auto, unfolding(states::specs::Switches::toggled))]
fn toggle_switch(configuration: NetworkConfiguration, i: usize) -> NetworkConfiguration
    requires { i < 512 }
    ensures { result ≡ toggled_in configuration i }
{
    let mut moved = configuration;
    moved.switches[i] = if configuration.switches[i] == NetworkConfiguration::OPEN {
        NetworkConfiguration::CLOSED
    } else {
        NetworkConfiguration::OPEN
    };
    moved
}

// The least loss wins, the earlier on a tie.
#[tactic(auto, unfolding(searches::specs::Rounds::lesser_by))]
fn lesser_of(best: Option<Candidate>, candidate: Candidate) -> Candidate
    ensures { Some result ≡ lesser_candidate best candidate }
{
    match best {
        None => candidate,
        Some(best) if candidate.loss < best.loss => candidate,
        Some(best) => best,
    }
}

// Does a switch decide whether its branch is live? It does where the branch is in service and no other switch on it is open: then as many are open as its own
// byte says.
fn decides_branch(in_service: bool, open_count: u16, byte: u8) -> bool
    ensures { result ≡ (in_service && eqb open_count byte) }
{
    in_service && open_count == u16::from(byte)
}

// Is this an operable switch whose toggle makes no branch live or dead?
fn is_idle(switch: Switch, decides: bool) -> bool
    ensures { result ≡ (switch.can_operate && not decides) }
{
    switch.can_operate && !decides
}

// Is this an operable switch whose toggle makes its branch live or dead?
fn is_deciding(switch: Switch, decides: bool) -> bool
    ensures { result ≡ (switch.can_operate && decides) }
{
    switch.can_operate && decides
}

// The live branches after the toggle of a switch that decides whether its branch is live.
fn toggled_live(
    live: [bool; PowerNetwork::MAX_BRANCHES],
    on: usize,
    state: u8,
) -> [bool; PowerNetwork::MAX_BRANCHES]
    requires { on < 512 }
    ensures { result ≡ set live on (eqb state 1) }
{
    let mut toggled = live;
    toggled[on] = state == NetworkConfiguration::OPEN;
    toggled
}

impl TabuSearch {
    // The base, before the first round.
    fn at_base(start: &Start) -> TabuSearch
        ensures { (n : PowerNetwork) → Base n start.now.base start.now.loss
            → start.now.radial ≡ radial_in (records_of n) (base_state (records_of n))
            → result ≡ tabu_of (records_of n) (tabu_start (records_of n)) }
    {
        TabuSearch {
            configuration: start.base,
            radial: start.radial,
            loss: start.loss,
            best: start.base,
            best_loss: start.loss,
            barred: TabuList::new(),
            ended: false,
        }
    }

    // A barred id may move where the loss is below the best ever.
    fn is_allowed(&self, candidate: Candidate) -> bool
        ensures { result ≡ allows self.now candidate }
    {
        !self.barred.contains(candidate.moved) || candidate.loss < self.best_loss
    }

    // The best of a round after one candidate more.
    fn see_candidate(&self, best: Option<Candidate>, candidate: Candidate) -> Option<Candidate>
        ensures { result ≡ seen self.now best candidate }
    {
        if self.is_allowed(candidate) {
            Some(lesser_of(best, candidate))
        } else {
            best
        }
    }

    // The best of a round after the toggle of switch i, which leaves a radial state with this loss.
    fn see_toggle(&self, best: Option<Candidate>, i: usize, id: u16, loss: f64) -> Option<Candidate>
        requires { i < 512 }
        ensures { result ≡ seen self.now best (record { configuration = toggled_in self.now.configuration i; loss = loss; moved = id }) }
    {
        let candidate = Candidate {
            configuration: toggle_switch(self.configuration, i),
            loss,
            moved: id,
        };
        self.see_candidate(best, candidate)
    }

    // The winner of a round is the next state, and the answer where its loss is below the best ever. No candidate ends the search.
    fn after_move(&mut self, step: Option<Candidate>)
        ensures { (N : Network) (x : Tabu) (found : Option Move) → self.old ≡ tabu_of N x → IfSome (MoveFrom N x.state) found
            → step ≡ candidate_of found → self.new ≡ tabu_of N (after_move x found) }
    {
        self.ended = step.is_none();
        if let Some(step) = step {
            self.configuration = step.configuration;
            self.radial = true;
            self.loss = step.loss;
            self.barred.push(step.moved);
            if step.loss < self.best_loss {
                self.best = step.configuration;
                self.best_loss = step.loss;
            }
        }
    }
}

// A round from a radial state. Each of the two rounds has its loop: a shared one would take the test and the loss as a closure over the graph, the loads and the flags,
// whose clauses are longer than the loop. Only a toggle that makes no branch live or dead leaves it radial, and the loss as it is. The network is lent, so that a round
// keeps no copy of it.
#[tactic(auto, using(states::specs::Listed::few_switches))]
fn best_from_radial(network: &PowerNetwork, search: &TabuSearch) -> Option<Candidate>
    requires { (check_records (records_of network.now) ≡ accepted tt) × (length network.now.branches ≡ 512) }
    ensures { (x : Tabu) → Stands network.now search.now x → search.now.radial ≡ true → result ≡ candidate_of (best_move (records_of network.now) x) }
{
    let configuration = search.configuration;
    let counts = open_counts(*network, configuration);
    let count = usize::from(network.switch_count);
    let mut best = None;
    for (i, switch) in network.switches[..count].iter().enumerate() {
        let on = usize::from(switch.branch_idx);
        let byte = configuration.switches[i];
        let decides = decides_branch(network.branches[on].status, counts[on], byte);
        if is_idle(*switch, decides) {
            best = search.see_toggle(best, i, switch.id, search.loss);
        }
    }
    best
}

// A round from a state that is not radial. Only a toggle that makes a branch live or dead can make it so.
fn best_from_other(network: &PowerNetwork, start: &Start, search: &TabuSearch) -> Option<Candidate>
    requires { Started network.now start.now × (length network.now.buses ≡ 256) × (length network.now.branches ≡ 512) }
    ensures { (x : Tabu) → Stands network.now search.now x → search.now.radial ≡ false → result ≡ candidate_of (best_move (records_of network.now) x) }
{
    let configuration = search.configuration;
    let live = live_branches(*network, configuration);
    let counts = open_counts(*network, configuration);
    let count = usize::from(network.switch_count);
    let mut best = None;
    for (i, switch) in network.switches[..count].iter().enumerate() {
        let on = usize::from(switch.branch_idx);
        let byte = configuration.switches[i];
        let decides = decides_branch(network.branches[on].status, counts[on], byte);
        if is_deciding(*switch, decides) {
            let toggled = toggled_live(live, on, byte);
            if is_radial(start.graph, toggled) {
                let loss = live_loss(
                    start.graph,
                    start.loads,
                    network.branches,
                    network.base_mva,
                    toggled,
                );
                best = search.see_toggle(best, i, switch.id, loss);
            }
        }
    }
    best
}

// Document 01's tabu search, from the base.
fn tabu_rounds(network: PowerNetwork, start: &Start) -> TabuSearch
    requires { Started network start.now }
    ensures { result ≡ tabu_of (records_of network) (tabu (records_of network)) }
{
    let mut search = TabuSearch::at_base(start);
    for round in 0..network.max_iterations {
        if search.ended {
            break;
        }
        let step = if search.radial {
            best_from_radial(&network, &search)
        } else {
            best_from_other(&network, start, &search)
        };
        search.after_move(step);
    }
    search
}

// What the tabu search finds: it reports max_iterations and converged.
fn search(network: PowerNetwork, start: &Start) -> Found
    requires { Started network start.now }
    ensures { result ≡ found_of (records_of network) (tabu_best (records_of network)) }
{
    let done = tabu_rounds(network, start);
    Found {
        configuration: done.best,
        loss: done.best_loss,
        iterations: network.max_iterations,
        converged: true,
    }
}

// Document 01's tabu search of a feeder, whichever search its head asks for: the best state's bytes at the front of the slice, and the result.
pub fn tabu_search(network: PowerNetwork, out: &mut [u8]) -> Result<ReconfigResult, Refusal>
    ensures { record { answer = valued result_of (answer_of result); out = out.new } ≡ solved_by tabu_best (records_of network) out.old }
{
    check_search(network, out.len())?;
    let start = start_of(network);
    Ok(answer_with(network, start, search(network, &start), out))
}
