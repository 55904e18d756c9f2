// The rounds of the benchmark.
ghost use Rattle.std.specs.Prelude.{◌≡◌, ◌%◌, cond, if◌then◌else◌, ◌==◌, nat_eq};
ghost use Rattle.network.specs.Answers.{accepted};
ghost use Rattle.network.specs.Records.{records_of};
ghost use Rattle.frames.specs.Text.{read_text};
ghost use Rattle.timing.specs.Rounds.{value_of, asked, total};

use crate::values::{loss, pairs, radiality, reading};
use frames::reader::read_text;
use network::topology::PowerNetwork;
use std::num::wrapping_add_u64;

// A call of a kind, a number since tests/benchmark names it from outside: 0 reads the text, 1 is radiality and 2 the loss of the first state, 3 the plan from the first state to the second.
fn call(kind: u8, text: &[u8], network: PowerNetwork, first: &[u8], second: &[u8]) -> u64
    requires { read_text text.now ≡ accepted (records_of network) }
    ensures { result ≡ value_of (asked kind text.now first.now second.now) }
{
    match kind {
        0 => reading(text),
        1 => radiality(network, first),
        2 => loss(network, first),
        3 => pairs(network, first, second),
        _ => 0,
    }
}

// The first of two states in round i: they change places with every round, so that none repeats the one before it.
fn in_turn<'a>(a: &'a [u8], b: &'a [u8], i: u64) -> &'a [u8]
    ensures { result.now ≡ (if nat_eq (i % 2) 0 then a.now else b.now) }
{
    if i % 2 == 0 { a } else { b }
}

// Round i. The call stands at one place, so that the compiler hands the network on without a copy.
fn round<'a>(kind: u8, text: &[u8], network: PowerNetwork, a: &'a [u8], b: &'a [u8], i: u64) -> u64
    requires { read_text text.now ≡ accepted (records_of network) }
    ensures { result ≡ cond (i % 2 == 0)
        (value_of (asked kind text.now a.now b.now))
        (value_of (asked kind text.now b.now a.now)) }
{
    call(kind, text, network, in_turn(a, b, i), in_turn(b, a, i))
}

fn rounds<'a>(
    kind: u8,
    text: &[u8],
    network: PowerNetwork,
    a: &'a [u8],
    b: &'a [u8],
    times: u64,
) -> u64
    requires { read_text text.now ≡ accepted (records_of network) }
    ensures { result ≡ total (value_of (asked kind text.now a.now b.now))
        (value_of (asked kind text.now b.now a.now)) times }
{
    let mut sum = 0u64;
    for i in 0..times {
        sum = wrapping_add_u64(sum, round(kind, text, network, a, b, i));
    }
    sum
}

// So many rounds of a kind of call on a text's records and two of its states, and the sum of what they answer.
#[unsafe(no_mangle)]
pub extern "C" fn timing_rounds<'a>(
    kind: u8,
    text: &[u8],
    a: &'a [u8],
    b: &'a [u8],
    times: u64,
) -> u64
    ensures { result ≡ total (value_of (asked kind text.now a.now b.now))
        (value_of (asked kind text.now b.now a.now)) times }
{
    let Ok(network) = read_text(text) else {
        return 0;
    };
    rounds(kind, text, network, a, b, times)
}
