// The frame reader: a text becomes records, or the first refusal with its place.
ghost use Rattle.std.specs.Prelude.{◌≡◌, ◌≤◌, length, drop};
ghost use Rattle.network.specs.Answers.{answer_of, valued};
ghost use Rattle.network.specs.Records.{network_of, empty_network};
ghost use Rattle.lines.specs.Lines.{cut};
ghost use Rattle.frames.specs.Text.{read_as, read_text, read_stored};
ghost use Rattle.frames.specs.Passes.{collect};
ghost use Rattle.record_lines.specs.LineAnswers.{head_of_code};
ghost use Rattle.frames.specs.FrameReads.{AreRecords, IsCollected};

use crate::pass::read_lines;
use crate::supply::read_supply;
use feeders::supply::check_as;
use lines::line::judge_end;
use network::error::Refusal;
use network::topology::PowerNetwork;
use record_lines::head::{Head, head_line};
use record_lines::record::Record;

// The buses, branches and switches of the lines behind the head line, up to the first line that is refused for its text or a byte without a meaning.
fn read_records(text: &[u8], head: Head, network: &mut PowerNetwork) -> Result<usize, Refusal>
    requires { (37 ≤ length text.now) × (head.buses ≤ 256) × (head.branches ≤ 512) × (head.switches ≤ 512)
        × (network.old ≡ empty_network head.base_mva head.algorithm head.max_iterations) }
    ensures { AreRecords (head_of_code head) text.now network.new result }
{
    let at = Head::SIZE + 1;
    let place = 2;
    let buses = read_lines(
        text,
        at,
        place,
        &mut network.buses[..usize::from(head.buses)],
    );
    network.bus_count = buses.read;
    let at = buses.next?;
    let place = place + head.buses;
    let branches = read_lines(
        text,
        at,
        place,
        &mut network.branches[..usize::from(head.branches)],
    );
    network.branch_count = branches.read;
    let at = branches.next?;
    let place = place + head.branches;
    let switches = read_lines(
        text,
        at,
        place,
        &mut network.switches[..usize::from(head.switches)],
    );
    network.switch_count = switches.read;
    switches.next
}

// The records of all lines behind the head line: behind the switches the supply, if a line is left, and then no line more.
fn read_body(text: &[u8], head: Head, network: &mut PowerNetwork) -> Result<(), Refusal>
    requires { (37 ≤ length text.now) × (head.buses ≤ 256) × (head.branches ≤ 512) × (head.switches ≤ 512)
        × (network.old ≡ empty_network head.base_mva head.algorithm head.max_iterations) }
    ensures { IsCollected (collect (head_of_code head) (cut (drop 37 text.now))) network.new result }
{
    let at = read_records(text, head, network)?;
    let place = 2 + head.buses + head.branches + head.switches;
    let at = read_supply(text, at, place, network)?;
    judge_end(text, at, place + 1)
}

// What a text means, stored or not. The records decide first: their lines stand before the line at which reading stopped.
fn read_as(text: &[u8], stored: bool) -> Result<PowerNetwork, Refusal>
    ensures { answer_of result ≡ valued network_of (read_as stored text.now) }
{
    let head = head_line(text)?;
    let mut network = PowerNetwork::new(head.base_mva, head.algorithm, head.max_iterations);
    let body = read_body(text, head, &mut network);
    check_as(network, stored).and(body)?;
    Ok(network)
}

// What a text means: its records, or the first refusal with its place.
pub fn read_text(text: &[u8]) -> Result<PowerNetwork, Refusal>
    ensures { answer_of result ≡ valued network_of (read_text text.now) }
{
    read_as(text, false)
}

// What a stored text means: branches from a bus to itself pass, and 15 is judged of what is left without them.
pub fn read_stored(text: &[u8]) -> Result<PowerNetwork, Refusal>
    ensures { answer_of result ≡ valued network_of (read_stored text.now) }
{
    read_as(text, true)
}
