// The single moves of a plan.
ghost use Rattle.std.specs.Prelude.{◌≡◌, [], ◌∷◌, ◌++◌, map, ◌+◌, ◌*◌, ◌≤◌, length};
ghost use Rattle.plan.specs.SwitchLists.{listed};
ghost use Rattle.plan.specs.Stored.{moves_in};
ghost use Rattle.printing.specs.Lengths.{operation_length};
ghost use Rattle.printing.specs.Stored.{ids_in};
ghost use Rattle.slices.specs.Written.{written};
ghost use Rattle.operations.specs.Operations.{operations_text};
ghost use Rattle.resumption.specs.SingleMoves.{to, single_moves, inverse, going_back};

use network::topology::PowerNetwork;
use plan::list::SwitchList;
use plan::pairs::Pair;
use printing::lengths::OPERATION_LENGTH;
use printing::writer::{SwitchAction, SwitchIds, SwitchOperation, write_operation};

// The single moves of a plan in order: each switch moves at most once.
pub(crate) type MoveList = SwitchList<SwitchOperation>;

// No moves.
fn no_moves() -> MoveList
    ensures { listed result ≡ [] }
{
    MoveList::new(SwitchOperation {
        switch_id: 0,
        action: SwitchAction::Close,
    })
}

// One move more for each of the ids, in order.
fn push_ids(moves: &mut MoveList, switches: SwitchIds, action: SwitchAction)
    requires { length (listed moves.old) + length (ids_in switches) ≤ 512 }
    ensures { listed moves.new ≡ listed moves.old ++ map (to action) (ids_in switches) }
{
    let n = usize::from(switches.count).min(PowerNetwork::MAX_SWITCHES_ON_BRANCH);
    for id in &switches.ids[..n] {
        moves.push(SwitchOperation {
            switch_id: *id,
            action,
        });
    }
}

// The single moves of the pairs, one pair behind the other: of each the closings, then the openings.
pub(crate) fn moves_of(pairs: &[Pair]) -> MoveList
    requires { length (single_moves (moves_in pairs.now)) ≤ 512 }
    ensures { listed result ≡ single_moves (moves_in pairs.now) }
{
    let mut moves = no_moves();
    for pair in pairs {
        push_ids(&mut moves, pair.closes, SwitchAction::Close);
        push_ids(&mut moves, pair.opens, SwitchAction::Open);
    }
    moves
}

// The move that undoes this one.
fn inverse(operation: SwitchOperation) -> SwitchOperation
    ensures { result ≡ inverse operation }
{
    let action = match operation.action {
        SwitchAction::Open => SwitchAction::Close,
        SwitchAction::Close => SwitchAction::Open,
    };
    SwitchOperation {
        action,
        ..operation
    }
}

// The moves that go back: those done inverted, the last one first.
pub(crate) fn going_back(done: &[SwitchOperation]) -> MoveList
    requires { length done.now ≤ 512 }
    ensures { listed result ≡ going_back done.now }
{
    let mut back = no_moves();
    for operation in done.iter().rev() {
        back.push(inverse(*operation));
    }
    back
}

// A line for each move, in order.
pub(crate) fn write_moves(out: &mut [u8], moves: &[SwitchOperation])
    requires { operation_length * length moves.now ≤ length out.old }
    ensures { out.new ≡ written (operations_text moves.now) out.old }
{
    for (i, operation) in moves.iter().enumerate() {
        write_operation(&mut out[OPERATION_LENGTH * i..], *operation);
    }
}
