// A line's refusals 3 to 9, and 17, from its record and what the records before it say of it.
ghost use Rattle.std.specs.Prelude.{◌≡◌, ◌&&◌, eqb, leb};
ghost use Rattle.network.specs.Answers.{answer_of, judge};
ghost use Rattle.network.specs.Limits.{in_range, method_byte};
ghost use Rattle.network.specs.Faults.{head_row, bus_row, branch_row, switch_row};

use network::branch::Branch;
use network::bus::Bus;
use network::error::Refusal;
use network::switch::{ReconfigAlgorithm, Switch};
use network::topology::PowerNetwork;

// Whether x lies between two ends, each allowed. A NaN or an infinity does not.
fn in_range(x: f64, low: f64, high: f64) -> bool
    ensures { result ≡ in_range low high x }
{
    x >= low && x <= high
}

// A head line's refusals, from its counts, base_mva and max_iterations.
#[tactic(auto, unfolding(network::specs::Answers::judge, network::specs::Limits::ok_base))]
pub fn judge_head(
    bus_count: u16,
    branch_count: u16,
    switch_count: u16,
    base_mva: f64,
    max_iterations: u16,
) -> Result<(), Refusal>
    ensures { answer_of result ≡ judge
        (head_row bus_count branch_count switch_count base_mva max_iterations) 1 }
{
    let line = 1;
    if max_iterations > PowerNetwork::MAX_ITERATIONS {
        return Err(Refusal::Meaning { line });
    }
    if usize::from(bus_count) > PowerNetwork::MAX_BUSES
        || usize::from(branch_count) > PowerNetwork::MAX_BRANCHES
        || usize::from(switch_count) > PowerNetwork::MAX_SWITCHES
    {
        return Err(Refusal::Count { line });
    }
    // base_mva from 0.001 to 1,000,000
    if !in_range(base_mva, 0.001, 1000000.0) {
        return Err(Refusal::Range { line });
    }
    Ok(())
}

// A bus line's refusals; `twice` says that a bus before it has its id.
#[tactic(auto, unfolding(network::specs::Answers::judge, network::specs::Limits::ok_load))]
pub fn judge_bus(bus: Bus, twice: bool, place: u16) -> Result<(), Refusal>
    ensures { answer_of result ≡ judge (bus_row bus twice) place }
{
    // pd within ±1,000,000
    if !in_range(bus.pd.0, -1000000.0, 1000000.0) {
        return Err(Refusal::Range { line: place });
    }
    if twice {
        return Err(Refusal::Twice { line: place });
    }
    Ok(())
}

// A branch line's refusals; the flags say whether a bus with the id of each end is listed, and whether the text is a stored one: there
// a branch from a bus to itself passes.
#[tactic(auto, unfolding(network::specs::Answers::judge, network::specs::Limits::ok_r))]
pub fn judge_branch(
    branch: Branch,
    from_listed: bool,
    to_listed: bool,
    stored: bool,
    place: u16,
) -> Result<(), Refusal>
    ensures { answer_of result ≡ judge (branch_row stored branch from_listed to_listed) place }
{
    // r from 0 to 1,000
    if !in_range(branch.r, 0.0, 1000.0) {
        return Err(Refusal::Range { line: place });
    }
    if !from_listed || !to_listed {
        return Err(Refusal::NotListed { line: place });
    }
    if !stored && branch.from_bus == branch.to_bus {
        return Err(Refusal::EqualEnds { line: place });
    }
    Ok(())
}

// With method 02, a tie with ten ties before it.
fn is_eleventh_tie(algorithm: ReconfigAlgorithm, normally_open: bool, ties: u16) -> bool
    ensures { result ≡ (eqb (method_byte algorithm) 2 && (normally_open && leb 10 ties)) }
{
    algorithm == ReconfigAlgorithm::Exhaustive
        && normally_open
        && usize::from(ties) >= PowerNetwork::MAX_TIES
}

// A switch line's refusals; of the switches before it, `twice` says that one has its id, `on_branch` how many are on its
// branch, and `ties` how many are normally open.
#[tactic(auto, unfolding(network::specs::Answers::judge))]
pub fn judge_switch(
    switch: Switch,
    branch_count: u16,
    algorithm: ReconfigAlgorithm,
    twice: bool,
    on_branch: u8,
    ties: u16,
    place: u16,
) -> Result<(), Refusal>
    ensures { answer_of result ≡ judge (switch_row switch branch_count algorithm twice on_branch ties) place }
{
    if switch.branch_idx >= branch_count {
        return Err(Refusal::NotListed { line: place });
    }
    if twice {
        return Err(Refusal::Twice { line: place });
    }
    if usize::from(on_branch) >= PowerNetwork::MAX_SWITCHES_ON_BRANCH {
        return Err(Refusal::ThirdSwitch { line: place });
    }
    if is_eleventh_tie(algorithm, switch.normally_open, ties) {
        return Err(Refusal::EleventhTie { line: place });
    }
    Ok(())
}
