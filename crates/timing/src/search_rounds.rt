// The rounds of searches. They have an entry of their own: in one with the other calls the compiler copies the network for each of those.
ghost use Rattle.std.specs.Prelude.{◌≡◌};
ghost use Rattle.network.specs.Records.{records_of};
ghost use Rattle.timing.specs.Rounds.{value_of, search_value, text_search, total};

use crate::values::search;
use frames::reader::read_text;
use network::topology::PowerNetwork;
use std::num::wrapping_add_u64;

fn search_rounds(network: PowerNetwork, times: u64) -> u64
    ensures { result ≡ total (value_of (search_value (records_of network))) (value_of (search_value (records_of network))) times }
{
    let mut sum = 0u64;
    'rounds: for _ in 0..times {
        sum = wrapping_add_u64(sum, search(network));
    }
    sum
}

// So many times the search that a text asks for, and the sum of what they answer.
#[unsafe(no_mangle)]
pub extern "C" fn timing_searches(text: &[u8], times: u64) -> u64
    ensures { result ≡ total (value_of (text_search text.now)) (value_of (text_search text.now)) times }
{
    let Ok(network) = read_text(text) else {
        return 0;
    };
    search_rounds(network, times)
}
