// What is answered to a text: the lines of the search's answer, the operations and the plan, or a refusal.
ghost use Rattle.std.specs.Prelude.{◌≡◌, ◌+◌, ◌≤◌, length};
ghost use Rattle.std.proofs.lemmas.List.Edits.{sets};
ghost use Rattle.network.specs.Answers.{accepted, answer_of};
ghost use Rattle.feeders.specs.Supply.{check_network};
ghost use Rattle.network.specs.Records.{records_of};
ghost use Rattle.slices.specs.Written.{written};
ghost use Rattle.printing.specs.Lengths.{result_length, operations_length, plan_length, printed_length};
ghost use Rattle.printing.specs.Calls.{called};
ghost use Rattle.searches.specs.Results.{result_of};
ghost use Rattle.answers.specs.Printing.{result_lines, operation_lines, plan_lines, move_lines, network_text, answered_text};
ghost use Rattle.answers.specs.PrintingValues.{Searched, HasBits};

use frames::reader::read_text;
use graph::form::is_tree;
use network::error::Refusal;
use network::topology::PowerNetwork;
use operations::operations::compute_switch_operations;
use plan::planner::plan_lines;
use printing::lengths::{ANSWER_LENGTH, MAX_LENGTH, OPERATION_LENGTH, RESULT_LENGTH};
use printing::writer::{write_answer, write_form};
use reconfiguration::solve::solve;
use searches::answer::ReconfigResult;
use slices::writer::write_bytes;
use states::configuration::{NetworkConfiguration, build_base_configuration};

// The 81 line and the 84 line, of the best state.
fn write_result(out: &mut [u8], res: ReconfigResult)
    requires { HasBits res × (result_length ≤ length out.old) }
    ensures { out.new ≡ written (result_lines (result_of res)) out.old }
{
    let form = res.form;
    write_answer(
        out,
        is_tree(form),
        f64::to_bits(res.base_losses_mw),
        f64::to_bits(res.optimized_losses_mw),
        f64::to_bits(res.loss_reduction_pct),
        res.n_iterations,
        res.converged,
    );
    write_form(&mut out[ANSWER_LENGTH..], form);
}

// The 82 lines from the base to the best state, and how many bytes they are.
fn write_operations(out: &mut [u8], network: PowerNetwork, base: &[u8], best: &[u8]) -> usize
    requires { Searched network base.now best.now × (operations_length ≤ length out.old) }
    ensures { (result ≡ length (operation_lines (records_of network))) × (out.new ≡ written (operation_lines (records_of network)) out.old) }
{
    let Ok(count) = compute_switch_operations(network, base, best, out) else {
        return 0;
    };
    OPERATION_LENGTH * usize::from(count)
}

// The 86 lines from a radial base to the best state, and how many bytes they are. The planner refuses a base that is not radial: it has none.
fn write_plan(out: &mut [u8], network: PowerNetwork, base: &[u8], best: &[u8]) -> usize
    requires { Searched network base.now best.now × (plan_length ≤ length out.old) }
    ensures { (result ≡ length (plan_lines (records_of network))) × (out.new ≡ written (plan_lines (records_of network)) out.old) }
{
    let Ok(lines) = plan_lines(network, base, best, out) else {
        return 0;
    };
    lines.length
}

// The lines behind the 81 line and the 84 line, and how many bytes are printed with these: each writer gets the output from behind the lines before.
fn write_moves(out: &mut [u8], network: PowerNetwork, base: &[u8], best: &[u8]) -> usize
    requires { Searched network base.now best.now × (printed_length ≤ length out.old) }
    ensures { (result ≡ result_length + length (move_lines (records_of network))) × (out.new ≡ sets out.old result_length (move_lines (records_of network))) }
{
    let operations = write_operations(&mut out[RESULT_LENGTH..], network, base, best);
    let n = RESULT_LENGTH + operations;
    n + write_plan(&mut out[n..], network, base, best)
}

// All lines for a network. A search that is refused prints nothing: that of a network that has passed its test is not.
fn print_network(out: &mut [u8], network: PowerNetwork) -> usize
    requires { (check_network (records_of network) ≡ accepted tt) × (printed_length ≤ length out.old) }
    ensures { (result ≡ length (network_text (records_of network))) × (out.new ≡ written (network_text (records_of network)) out.old) }
{
    let base = build_base_configuration(network).switches;
    let mut best = [0u8; NetworkConfiguration::MAX_SWITCHES];
    let Ok(result) = solve(network, &mut best) else {
        return 0;
    };
    write_result(out, result);
    let n = usize::from(network.switch_count);
    write_moves(out, network, &base[..n], &best[..n])
}

// A network's lines, at the front of the slice. How long they are shows only when they are made, and a refusal writes no lent byte: so they are made in
// memory of this call's own.
fn answer_network(network: PowerNetwork, out: &mut [u8]) -> Result<u16, Refusal>
    requires { check_network (records_of network) ≡ accepted tt }
    ensures { record { answer = answer_of result; out = out.new }
        ≡ called (accepted tt) (length (network_text (records_of network))) (network_text (records_of network)) out.old }
{
    let mut lines = [0u8; MAX_LENGTH];
    let n = print_network(&mut lines, network);
    if out.len() < n {
        return Err(Refusal::Room);
    }
    write_bytes(out, &lines[..n]);
    Ok(n as u16)
}

// The lines for a text, at the front of the slice, which keeps what is behind them. A text that is refused has its own number and place answered, whatever
// the slice is, and a refusal writes no lent byte: the 8F line is the caller's to print.
pub fn answer_text(text: &[u8], out: &mut [u8]) -> Result<u16, Refusal>
    ensures { record { answer = answer_of result; out = out.new } ≡ answered_text text.now out.old }
{
    let network = read_text(text)?;
    answer_network(network, out)
}
