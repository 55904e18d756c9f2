// The supply line of a text.
ghost use Rattle.std.specs.Prelude.{◌≡◌, [], ◌≤◌, length, drop};
ghost use Rattle.lines.specs.Lines.{cut};
ghost use Rattle.frames.specs.Passes.{pass_supply};
ghost use Rattle.frames.specs.FrameReads.{with_supply, IsNext};

use network::error::Refusal;
use network::topology::PowerNetwork;
use record_lines::record::{Record, read_line};
use record_lines::supply::Supply;

// The line at `at` and `place`, if a line is left there. Where the next one begins.
pub(crate) fn read_supply(
    text: &[u8],
    at: usize,
    place: u16,
    network: &mut PowerNetwork,
) -> Result<usize, Refusal>
    requires { (at ≤ length text.now) × (network.old ≡ with_supply network.old []) }
    ensures { IsNext (with_supply network.old) text.now (pass_supply place (cut (drop at text.now))) network.new result }
{
    if at == text.len() {
        return Ok(at);
    }
    let Supply(id) = read_line(text, at, place)?;
    network.supply = Some(id);
    Ok(at + (Supply::SIZE + 1))
}
