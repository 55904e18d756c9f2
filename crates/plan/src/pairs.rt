// The pairs of a plan.
ghost use Rattle.std.specs.Prelude.{◌≡◌, true, false, [], ◌∷◌, ◌++◌, map, ℕ, ◌+◌, ◌<◌, length, get_or, set};
ghost use Rattle.network.specs.Answers.{accepted};
ghost use Rattle.network.specs.Check.{check_records};
ghost use Rattle.network.specs.Records.{records_of};
ghost use Rattle.printing.specs.Stored.{ids_in, no_entry};
ghost use Rattle.graph.specs.Rows.{flag};
ghost use Rattle.changes.specs.Change.{only_in};
ghost use Rattle.changes.specs.Passing.{Passed};
ghost use Rattle.plan.specs.SwitchLists.{listed};
ghost use Rattle.plan.specs.Plan.{open_switches, id_of, plan};
ghost use Rattle.plan.specs.Stored.{moves_in};

use crate::list::SwitchList;
use changes::change::Change;
use graph::flags::flagged;
use network::topology::PowerNetwork;
use openings::opening::opening;
use printing::writer::SwitchIds;
use states::configuration::NetworkConfiguration;

// A pair: the ids of the switches that it closes, and of those that it opens.
#[derive(Clone, Copy)]
pub struct Pair {
    pub closes: SwitchIds,
    pub opens: SwitchIds,
}

// The pairs of a plan in order. Each closes another branch by a switch of its own: there are no more of them than switches (`specs/Length.plan_few`:
// 255 at the most).
pub type PairList = SwitchList<Pair>;

// The pairs made so far, and the branches that are live with them done.
#[derive(Drop)]
struct Stage {
    live: [bool; PowerNetwork::MAX_BRANCHES],
    pairs: PairList,
}

impl Stage {
    // The pair that closes branch k and opens branch f, made of the switches that it moves and done.
    fn pair_done(&mut self, k: u16, f: u16, pair: Pair)
        requires { (k < 512) × (f < 512) × (length (listed self.old.pairs) < 512) }
        ensures { (self.new.live ≡ set (set self.old.live k true) f false) × (listed self.new.pairs ≡ listed self.old.pairs ++ pair ∷ []) }
    {
        self.live[usize::from(k)] = true;
        self.live[usize::from(f)] = false;
        self.pairs.push(pair);
    }
}

// One id more, behind the others.
fn with_id(mut ids: SwitchIds, id: u16) -> SwitchIds
    requires { ids.count < 2 }
    ensures { (result.count ≡ ids.count + 1) × (ids_in result ≡ ids_in ids ++ (id ∷ [])) }
{
    ids.ids[usize::from(ids.count)] = id;
    ids.count += 1;
    ids
}

// For each branch position the ids of the switches on it that are open in the state, in list order.
fn open_ids(network: &PowerNetwork, state: &[u8]) -> [SwitchIds; PowerNetwork::MAX_BRANCHES]
    requires { (check_records (records_of network.now) ≡ accepted tt) × (length state.now ≡ network.now.switch_count) }
    ensures { (k : ℕ) → k < 512 → ids_in (get_or result k no_entry) ≡ map (id_of (records_of network.now)) (open_switches (records_of network.now) state.now k) }
{
    let mut ids = [SwitchIds::new(); PowerNetwork::MAX_BRANCHES];
    let switches = &network.switches[..usize::from(network.switch_count)];
    for (i, switch) in switches.iter().enumerate() {
        if state[i] == NetworkConfiguration::OPEN {
            let on = usize::from(switch.branch_idx);
            ids[on] = with_id(ids[on], switch.id);
        }
    }
    ids
}

// Whether a pair still to come closes branch k: it is live in the wanted state and not yet.
fn is_closing(live: &[bool], wanted: &[bool], k: u16) -> bool
    ensures { result ≡ only_in (flag wanted.now) (flag live.now) k }
{
    flagged(wanted, k) && !flagged(live, k)
}

// The plan of a change that is accepted: a pair for each branch live in the wanted state only, by the order of its first switch. From there on the branch
// is live, so that its second switch makes no pair. A pair closes what is open on the one branch in the present state, and opens on the other what is open
// in the wanted one.
// Not inlined: `made_plan` would keep the arrays here on the stack while it checks the network, where the stack is deepest.
#[inline(never)]
pub(crate) fn pairs_of(
    network: PowerNetwork,
    change: Change,
    present: &[u8],
    wanted: &[u8],
) -> PairList
    requires { Passed network change present.now wanted.now }
    ensures { moves_in (listed result) ≡ plan (records_of network) present.now wanted.now }
{
    let closes = open_ids(&network, present);
    let opens = open_ids(&network, wanted);
    let none = SwitchIds::new();
    let pairs = PairList::new(Pair {
        closes: none,
        opens: none,
    });
    let mut stage = Stage {
        live: change.present_live,
        pairs,
    };
    for switch in &network.switches[..usize::from(network.switch_count)] {
        let k = switch.branch_idx;
        if is_closing(&stage.live, &change.wanted_live, k) {
            let f = opening(change.graph, stage.live, change.wanted_live, k);
            let pair = Pair {
                closes: closes[usize::from(k)],
                opens: opens[usize::from(f)],
            };
            stage.pair_done(k, f, pair);
        }
    }
    stage.pairs
}
