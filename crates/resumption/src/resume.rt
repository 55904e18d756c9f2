// The call for a plan that was cut off.
ghost use Rattle.std.specs.Prelude.{◌≡◌};
ghost use Rattle.network.specs.Answers.{answer_of};
ghost use Rattle.network.specs.Records.{records_of};
ghost use Rattle.resumption.specs.Resume.{resumed};

use crate::moves::{going_back, moves_of, write_moves};
use network::error::Refusal;
use network::topology::PowerNetwork;
use plan::planner::made_plan;
use printing::lengths::OPERATION_LENGTH;

// The plan from the present state to the wanted one with so many of its single moves done: the moves that remain, and those that go back from there,
// as 82 lines at the front of a slice each. `present` is the state in which the plan began. The answer is how many moves remain.
// What is asked and the two slices are the call's own, one by one.
pub fn resume(
    network: PowerNetwork,
    present: &[u8],
    wanted: &[u8],
    count: u64,
    remaining: &mut [u8],
    back: &mut [u8],
) -> Result<u16, Refusal>
    ensures { record { answer = answer_of result; first = remaining.new; second = back.new }
        ≡ resumed (records_of network) present.now wanted.now count remaining.old back.old }
{
    let made = made_plan(network, present, wanted)?;
    let moves = moves_of(made.as_slice());
    let Some((done, left)) = moves.as_slice().split_at_checked(count as usize) else {
        return Err(Refusal::MovesDone);
    };
    if remaining.len() < OPERATION_LENGTH * left.len() {
        return Err(Refusal::Room);
    }
    if back.len() < OPERATION_LENGTH * done.len() {
        return Err(Refusal::Room);
    }
    let undone = going_back(done);
    write_moves(remaining, left);
    write_moves(back, undone.as_slice());
    Ok(left.len() as u16)
}
