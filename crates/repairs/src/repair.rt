// Document 02, Point 7: the repair of a stored text. Its branches from a bus to itself are dropped with their switches; behind the text that is left stands a
// frame 87 for each dropped line.
ghost use Rattle.std.specs.Prelude.{◌≡◌, ◌≤◌, ◌+◌, ◌++◌, Bool, not, List, ℕ, length};
ghost use Rattle.network.specs.Answers.{accepted, answer_of};
ghost use Rattle.network.specs.Check.{check_records};
ghost use Rattle.network.specs.Records.{records_of};
ghost use Rattle.own_loops.specs.OwnLoops.{proper_at, dropped_from, dropped_lines};
ghost use Rattle.slices.specs.Written.{written};
ghost use Rattle.printing.specs.Printed.{reason_byte};
ghost use Rattle.texts.specs.PartLaws.{Begun};
ghost use Rattle.repairs.specs.Repairs.{dropped_lines_text, repaired, repaired_text};
ghost use Rattle.repairs.specs.RepairValues.{Left};

use frames::reader::read_stored;
use network::branch::Branch;
use network::error::Refusal;
use network::switch::Switch;
use network::topology::PowerNetwork;
use own_loops::dropping::{is_own_loop, without_own_loops};
use printing::lengths::DROPPED_LENGTH;
use printing::writer::{DropReason, write_dropped};
use texts::writer::{text_length, write_text};

// Whether a switch is on a branch from a bus to itself; one on no branch counts as such (own_loops/specs/OwnLoops).
fn is_on_own_loop(branches: &[Branch], switch: Switch) -> bool
    ensures { result ≡ not (proper_at branches.now switch.branch_idx) }
{
    branches
        .get(usize::from(switch.branch_idx))
        .is_none_or(|branch| is_own_loop(*branch))
}

// An 87 line for each of these records that is dropped, behind the bytes that end at `at`, and where they end. The first record stands on this line.
fn write_lines<T: Copy, F: Fn(T) -> bool>(
    out: &mut [u8],
    at: usize,
    records: &[T],
    line: u16,
    reason: DropReason,
    dropped: F,
) -> usize
    requires callable { F.IsAlwaysCallable dropped }
    requires few { line + length records.now ≤ 65535 }
    requires room { (drops : T → Bool) × ((x : T) (r : Bool) → F.post dropped x r → r ≡ drops x)
        × (at + length (dropped_lines_text (dropped_from drops (reason_byte reason) line records.now)) ≤ length out.old) }
    ensures { (drops : T → Bool) → ((x : T) (r : Bool) → F.post dropped x r → r ≡ drops x)
        → (bytes first : List ℕ) → Begun bytes first out.old at → Begun (bytes ++ dropped_lines_text (dropped_from drops (reason_byte reason) line records.now)) first out.new result }
{
    let mut end = at;
    for (line, record) in (line..).zip(records) {
        if dropped(*record) {
            write_dropped(&mut out[end..], line, reason);
            end += DROPPED_LENGTH;
        }
    }
    end
}

// The 87 lines of all that was dropped, in line order, behind the bytes that end at `at`.
fn write_dropped_lines(out: &mut [u8], at: usize, network: PowerNetwork)
    requires { (check_records (records_of network) ≡ accepted tt) × (at + length (dropped_lines_text (dropped_lines (records_of network))) ≤ length out.old) }
    ensures { (bytes first : List ℕ) → Begun bytes first out.old at → out.new ≡ written (bytes ++ dropped_lines_text (dropped_lines (records_of network))) first }
{
    let branches = &network.branches[..usize::from(network.branch_count)];
    let switches = &network.switches[..usize::from(network.switch_count)];
    let line = 2 + network.bus_count;
    let end = write_lines(out, at, branches, line, DropReason::Branch, is_own_loop);
    write_lines(
        out,
        end,
        switches,
        line + network.branch_count,
        DropReason::Switch,
        |switch| is_on_own_loop(branches, switch),
    );
}

// How many bytes the text of what is left has with the 87 lines behind it.
fn repaired_length(network: PowerNetwork, left: PowerNetwork) -> usize
    requires { Left network left }
    ensures { result ≡ length (repaired (records_of network)) }
{
    let branches = network.branch_count - left.branch_count;
    let switches = network.switch_count - left.switch_count;
    text_length(left) + DROPPED_LENGTH * usize::from(branches + switches)
}

// The repair of a stored text at the front of the slice, which keeps what is behind it, and how many bytes it has. The text's refusal comes first, then 13; a refusal writes no byte.
pub fn repair_text(text: &[u8], out: &mut [u8]) -> Result<u16, Refusal>
    ensures { record { answer = answer_of result; out = out.new } ≡ repaired_text text.now out.old }
{
    let network = read_stored(text)?;
    let left = without_own_loops(network);
    let length = repaired_length(network, left);
    if out.len() < length {
        return Err(Refusal::Room);
    }
    let behind = write_text(left, out)?;
    write_dropped_lines(out, usize::from(behind), network);
    Ok(length as u16)
}
