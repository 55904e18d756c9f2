// The rounds of writing a text. The slice is lent from outside: what is written into a local one, which nobody reads, the compiler may leave out.
ghost use Rattle.std.specs.Prelude.{◌≡◌};
ghost use Rattle.network.specs.Records.{records_of};
ghost use Rattle.frames.specs.Text.{read_text};
ghost use Rattle.texts.specs.Texts.{written_text};
ghost use Rattle.text_timing.specs.TextRounds.{counted, text_rounds, rounds_on};

use frames::reader::read_text;
use network::topology::PowerNetwork;
use std::num::wrapping_add_u64;
use texts::writer::write_text;

// How many bytes the network's text has.
fn writing(network: PowerNetwork, out: &mut [u8]) -> u64
    ensures { record { sum = result; out = out.new } ≡ counted (written_text (records_of network) out.old) }
{
    write_text(network, out).map_or(0, u64::from)
}

fn text_rounds(network: PowerNetwork, out: &mut [u8], times: u64) -> u64
    ensures { record { sum = result; out = out.new } ≡ text_rounds (records_of network) out.old times }
{
    let mut sum = 0u64;
    'rounds: for _ in 0..times {
        sum = wrapping_add_u64(sum, writing(network, out));
    }
    sum
}

// So many times the text of a text's records, each written over the one before, and the sum of what the calls answer.
#[unsafe(no_mangle)]
pub extern "C" fn timing_texts(text: &[u8], out: &mut [u8], times: u64) -> u64
    ensures { record { sum = result; out = out.new } ≡ rounds_on (read_text text.now) out.old times }
{
    let Ok(network) = read_text(text) else {
        return 0;
    };
    text_rounds(network, out, times)
}
