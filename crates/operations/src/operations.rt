// Translated and changed from src/network/reconfiguration.rs of oxigrid. Copyright 2024-2026 COOLJAPAN OU (Team Kitasan), Apache License 2.0.
// The list of operations that leads from one state to another.
ghost use Rattle.std.specs.Prelude.{◌≡◌, ℕ, ◌+◌, ◌*◌, ◌≤◌, ◌==◌, not, length, count_by};
ghost use Rattle.std.specs.List.{zip};
ghost use Rattle.std.proofs.lemmas.List.Edits.{sets};
ghost use Rattle.slices.specs.Written.{written};
ghost use Rattle.network.specs.Answers.{answer_of, ◌and_then◌};
ghost use Rattle.states.specs.Live.{check_state};
ghost use Rattle.feeders.specs.Supply.{check_network};
ghost use Rattle.printing.specs.Lengths.{operation_length};
ghost use Rattle.network.specs.Records.{records_of};
ghost use Rattle.operations.specs.Operations.{operation_to, operations, operations_text, operations_call};
ghost use Rattle.operations.specs.OperationValues.{Stated, line_of};

use feeders::supply::check_network;
use network::error::Refusal;
use network::switch::Switch;
use network::topology::PowerNetwork;
use printing::lengths::OPERATION_LENGTH;
use printing::writer::{SwitchAction, SwitchOperation, write_operation};
use states::configuration::{NetworkConfiguration, check_state};

// The network's refusals, then 10, that of the first state before that of the second.
fn check_states(network: PowerNetwork, from: &[u8], to: &[u8]) -> Result<(), Refusal>
    ensures { answer_of result ≡ (check_network (records_of network)
        and_then check_state (records_of network) from.now 0
        and_then check_state (records_of network) to.now 1) }
{
    check_network(network)?;
    check_state(network, from, 0)?;
    check_state(network, to, 1)
}

// What is done to a switch so that it stands as its byte in a state says.
#[tactic(auto, unfolding(crate::specs::Operations::operation_to))]
fn operation_to(switch: Switch, state: u8) -> SwitchOperation
    ensures { result ≡ operation_to switch state }
{
    let action = if state == NetworkConfiguration::OPEN {
        SwitchAction::Open
    } else {
        SwitchAction::Close
    };
    SwitchOperation {
        switch_id: switch.id,
        action,
    }
}

// How many switches stand otherwise in the two states.
fn count_differences(from: &[u8], to: &[u8]) -> usize
    ensures { result ≡ count_by (λ (p : ℕ × ℕ). not (p.0 == p.1)) (zip from.now to.now) }
{
    from.iter().zip(to).filter(|(a, b)| a != b).count()
}

// The line of a switch, if it stands otherwise, and where the next line begins. It is lent the whole slice, since the loop's invariant speaks of what stands in front too.
fn write_change(out: &mut [u8], at: usize, switch: Switch, from: u8, to: u8) -> usize
    requires { at + length (line_of switch from to) ≤ length out.old }
    ensures { (out.new ≡ sets out.old at (line_of switch from to)) × (result ≡ at + length (line_of switch from to)) }
{
    if from == to {
        return at;
    }
    write_operation(&mut out[at..], operation_to(switch, to));
    at + OPERATION_LENGTH
}

// A line for each operation, in switch order, one behind the other.
fn write_operations(network: PowerNetwork, from: &[u8], to: &[u8], out: &mut [u8])
    requires { Stated network from.now to.now
        × (operation_length * length (operations (records_of network) from.now to.now) ≤ length out.old) }
    ensures { out.new ≡ written (operations_text (operations (records_of network) from.now to.now)) out.old }
{
    let count = usize::from(network.switch_count);
    let mut at = 0;
    for (i, switch) in network.switches[..count].iter().enumerate() {
        at = write_change(out, at, *switch, from[i], to[i]);
    }
}

// The operations that lead from one state to another, as 82 lines at the front of the slice, and how many there are.
pub fn compute_switch_operations(
    network: PowerNetwork,
    from: &[u8],
    to: &[u8],
    out: &mut [u8],
) -> Result<u16, Refusal>
    ensures { record { answer = answer_of result; out = out.new }
        ≡ operations_call (records_of network) from.now to.now out.old }
{
    check_states(network, from, to)?;
    let count = count_differences(from, to);
    if out.len() < OPERATION_LENGTH * count {
        return Err(Refusal::Room);
    }
    write_operations(network, from, to, out);
    Ok(count as u16)
}
