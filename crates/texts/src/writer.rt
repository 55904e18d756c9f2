// The text of a network, written into a lent slice: the head's line, then one for each bus, branch and switch that is listed, then the supply's, if one is named.
ghost use Rattle.std.specs.Prelude.{◌≡◌, ◌≤◌, length};
ghost use Rattle.network.specs.Answers.{accepted, answer_of};
ghost use Rattle.network.specs.Check.{check_records, head_of};
ghost use Rattle.network.specs.Records.{records_of};
ghost use Rattle.record_lines.specs.LineAnswers.{head_of_code};
ghost use Rattle.slices.specs.Written.{written};
ghost use Rattle.frames.specs.Acceptable.{text_of};
ghost use Rattle.texts.specs.Texts.{written_text};

use crate::line::write_all;
use feeders::supply::check_network;
use network::branch::Branch;
use network::bus::Bus;
use network::error::Refusal;
use network::switch::Switch;
use network::topology::PowerNetwork;
use record_lines::head::Head;
use record_lines::record::Record;
use record_lines::supply::Supply;

// The longest text that is accepted (frames/specs/Lengths).
pub const LONGEST_TEXT: usize = Head::SIZE
    + 1
    + PowerNetwork::MAX_BUSES * (Bus::SIZE + 1)
    + PowerNetwork::MAX_BRANCHES * (Branch::SIZE + 1)
    + PowerNetwork::MAX_SWITCHES * (Switch::SIZE + 1)
    + Supply::SIZE
    + 1;

// The head line counts the records.
fn head_of(network: PowerNetwork) -> Head
    ensures { head_of_code result ≡ head_of (records_of network) }
{
    Head {
        buses: network.bus_count,
        branches: network.branch_count,
        switches: network.switch_count,
        base_mva: network.base_mva,
        algorithm: network.algorithm,
        max_iterations: network.max_iterations,
    }
}

// All lines, one behind the other.
fn write_lines(out: &mut [u8], network: PowerNetwork)
    requires { (check_records (records_of network) ≡ accepted tt) × (length (text_of (records_of network)) ≤ length out.old) }
    ensures { out.new ≡ written (text_of (records_of network)) out.old }
{
    let buses = write_all(out, 0, &[head_of(network)]);
    let branches = write_all(out, buses, &network.buses[..usize::from(network.bus_count)]);
    let switches = write_all(
        out,
        branches,
        &network.branches[..usize::from(network.branch_count)],
    );
    let supply = write_all(
        out,
        switches,
        &network.switches[..usize::from(network.switch_count)],
    );
    if let Some(id) = network.supply {
        write_all(out, supply, &[Supply(id)]);
    }
}

// How many bytes the text has.
pub fn text_length(network: PowerNetwork) -> usize
    ensures { result ≡ length (text_of (records_of network)) }
{
    let buses = (Bus::SIZE + 1) * usize::from(network.bus_count);
    let branches = (Branch::SIZE + 1) * usize::from(network.branch_count);
    let switches = (Switch::SIZE + 1) * usize::from(network.switch_count);
    let supplies = (Supply::SIZE + 1) * usize::from(network.supply.is_some());
    Head::SIZE + 1 + buses + branches + switches + supplies
}

// The text of a network, at the front of the slice, which keeps what is behind it, and how many bytes it has. The network's refusal comes first, then 13; a refusal writes no byte. What
// stands behind the counts is no record: it is not written and decides nothing.
pub fn write_text(network: PowerNetwork, out: &mut [u8]) -> Result<u16, Refusal>
    ensures { record { answer = answer_of result; out = out.new } ≡ written_text (records_of network) out.old }
{
    check_network(network)?;
    let length = text_length(network);
    if out.len() < length {
        return Err(Refusal::Room);
    }
    write_lines(out, network);
    Ok(length as u16)
}
