// The planner's refusals 10 to 12, behind those of the network.
ghost use Rattle.std.specs.Prelude.{◌≡◌, not, ◌&&◌, ◌||◌};
ghost use Rattle.network.specs.Answers.{answer_of};
ghost use Rattle.network.specs.Records.{records_of};
ghost use Rattle.graph.specs.Rows.{row_radial};
ghost use Rattle.feeders.specs.StateCalls.{judge_radial};
ghost use Rattle.changes.specs.Change.{check_locked, check_plan, flags_in, judged_in, judged};
ghost use Rattle.changes.specs.Passing.{Checked, Made};

use feeders::feeder::graph_of;
use feeders::supply::check_network;
use forms::form::form_of;
use graph::flags::flagged;
use graph::form::is_tree;
use graph::rows::Graph;
use network::error::Refusal;
use network::switch::Switch;
use network::topology::PowerNetwork;
use states::configuration::{NetworkConfiguration, check_state, live_branches};

// A change from the present state to the wanted one: its refusal or none, the feeder's graph, and a flag for each branch live in the one and in the
// other.
#[derive(Clone, Copy)]
pub struct Change {
    pub verdict: Result<(), Refusal>,
    pub graph: Graph,
    pub present_live: [bool; PowerNetwork::MAX_BRANCHES],
    pub wanted_live: [bool; PowerNetwork::MAX_BRANCHES],
}

// Row 12's condition on a switch: it differs, its branch is live in one of the two states only, and it is locked.
fn is_locked_difference(switch: Switch, differs: bool, before: bool, after: bool) -> bool
    ensures { result ≡ (differs && (((before && not after) || (after && not before)) && not switch.can_operate)) }
{
    differs && before != after && !switch.can_operate
}

// Refusal 11 of the present state (0) or the wanted one (1), from its live branches.
#[tactic(auto, using(graph::specs::FormLaws::row_tree_reading), unfolding(network::specs::Answers::judge))]
fn check_radial(
    graph: Graph,
    live: [bool; PowerNetwork::MAX_BRANCHES],
    which: u16,
) -> Result<(), Refusal>
    ensures { answer_of result ≡ judge_radial (row_radial graph live) which }
{
    if !is_tree(form_of(graph, live)) {
        return Err(Refusal::NotRadial { which });
    }
    Ok(())
}

impl Change {
    // Refusal 12, at the id of the first such switch in list order.
    fn check_locked(
        &self,
        network: PowerNetwork,
        present: &[u8],
        wanted: &[u8],
    ) -> Result<(), Refusal>
        requires checked { Checked network present.now wanted.now }
        requires made { Made network present.now wanted.now self.now }
        ensures { answer_of result ≡ check_locked (records_of network) present.now wanted.now }
    {
        // Taken out of the network first: lent from it, the whole network would be copied wherever it is handed over.
        let switches = network.switches;
        let listed = &switches[..usize::from(network.switch_count)];
        for (at, switch) in listed.iter().enumerate() {
            let before = flagged(&self.present_live, switch.branch_idx);
            let after = flagged(&self.wanted_live, switch.branch_idx);
            if is_locked_difference(*switch, present[at] != wanted[at], before, after) {
                return Err(Refusal::Locked { switch: switch.id });
            }
        }
        Ok(())
    }

    // The network's refusals, then 10 (present first), 11 (likewise), 12.
    fn verdict_of(
        &self,
        network: PowerNetwork,
        present: &[u8],
        wanted: &[u8],
    ) -> Result<(), Refusal>
        requires { Made network present.now wanted.now self.now }
        ensures { answer_of result ≡ check_plan (records_of network) present.now wanted.now }
    {
        check_network(network)?;
        check_state(network, present, 0)?;
        check_state(network, wanted, 1)?;
        check_radial(self.graph, self.present_live, 0)?;
        check_radial(self.graph, self.wanted_live, 1)?;
        self.check_locked(network, present, wanted)
    }
}

// A flag for each branch live in a state.
fn flags_in(network: PowerNetwork, state: &[u8]) -> [bool; PowerNetwork::MAX_BRANCHES]
    ensures { result ≡ flags_in network state.now }
{
    live_branches(network, NetworkConfiguration::of(state))
}

// Whether there is a plan from the present state to the wanted one, with what the judging took: the feeder's graph, and the live branches of both states.
pub fn check_plan(network: PowerNetwork, present: &[u8], wanted: &[u8]) -> Change
    ensures { judged_in result ≡ judged network present.now wanted.now }
{
    let mut change = Change {
        verdict: Ok(()),
        graph: graph_of(network),
        present_live: flags_in(network, present),
        wanted_live: flags_in(network, wanted),
    };
    change.verdict = change.verdict_of(network, present, wanted);
    change
}
