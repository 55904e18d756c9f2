// The planner.
ghost use Rattle.std.specs.Prelude.{◌≡◌, ◌<◌, ◌≤◌, ◌^◌, length, sum_by};
ghost use Rattle.slices.specs.Written.{written};
ghost use Rattle.network.specs.Answers.{answer_of, valued};
ghost use Rattle.network.specs.Records.{records_of};
ghost use Rattle.plan.specs.Plan.{plan_text, planned, planned_length};
ghost use Rattle.plan.specs.Stored.{moves_in, line_length, made_in, bytes_in};
ghost use Rattle.plan.specs.MadePlans.{made_plan};

use crate::pairs::{Pair, PairList, pairs_of};
use changes::change::check_plan;
use network::error::Refusal;
use network::topology::PowerNetwork;
use printing::writer::{pair_length, write_pair};

// How many pairs the plan has, and how many bytes their lines.
#[derive(Clone, Copy, Debug, PartialEq, Eq)]
pub struct PlanLines {
    pub pairs: u16,
    pub length: usize,
}

// How many bytes the lines of the pairs have together.
fn text_length(pairs: &[Pair]) -> usize
    requires { sum_by line_length pairs.now < 2 ^ 64 }
    ensures { result ≡ sum_by line_length pairs.now }
{
    pairs
        .iter()
        .map(|pair| pair_length(pair.closes, pair.opens))
        .sum()
}

// A line for each pair, one behind the other.
fn write_pairs(out: &mut [u8], pairs: &[Pair])
    requires { length (plan_text (moves_in pairs.now)) ≤ length out.old }
    ensures { out.new ≡ written (plan_text (moves_in pairs.now)) out.old }
{
    let mut at = 0;
    for pair in pairs {
        write_pair(&mut out[at..], pair.closes, pair.opens);
        at += pair_length(pair.closes, pair.opens);
    }
}

// The pairs of the plan from the present state to the wanted one.
pub fn made_plan(network: PowerNetwork, present: &[u8], wanted: &[u8]) -> Result<PairList, Refusal>
    ensures { made_in result ≡ made_plan (records_of network) present.now wanted.now }
{
    let change = check_plan(network, present, wanted);
    change.verdict?;
    Ok(pairs_of(network, change, present, wanted))
}

// The plan from the present state to the wanted one, as 86 lines at the front of the slice.
pub fn plan_lines(
    network: PowerNetwork,
    present: &[u8],
    wanted: &[u8],
    out: &mut [u8],
) -> Result<PlanLines, Refusal>
    ensures { (record { answer = valued (λ (l : PlanLines). l.pairs) (answer_of result); out = out.new }
        ≡ planned (records_of network) present.now wanted.now out.old)
        × (bytes_in result ≡ planned_length (records_of network) present.now wanted.now out.old) }
{
    let made = made_plan(network, present, wanted)?;
    let pairs = made.as_slice();
    let length = text_length(pairs);
    if out.len() < length {
        return Err(Refusal::Room);
    }
    write_pairs(out, pairs);
    Ok(PlanLines {
        pairs: pairs.len() as u16,
        length,
    })
}

// The same without the length.
pub fn plan(
    network: PowerNetwork,
    present: &[u8],
    wanted: &[u8],
    out: &mut [u8],
) -> Result<u16, Refusal>
    ensures { record { answer = answer_of result; out = out.new }
        ≡ planned (records_of network) present.now wanted.now out.old }
{
    let lines = plan_lines(network, present, wanted, out)?;
    Ok(lines.pairs)
}
