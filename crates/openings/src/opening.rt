// The branch that a pair opens, found on the path that its closing makes a loop of.
ghost use Rattle.std.specs.Prelude.{◌≡◌};
ghost use Rattle.graph.specs.Rows.{flag};
ghost use Rattle.openings.specs.Opening.{first_unwanted, row_opening};

use graph::flags::flagged;
use graph::rows::Graph;
use paths::path::path_of_ends;

// The first branch of a path that is not wanted; 0 where all are.
fn first_unwanted(path: &[u16], wanted: &[bool]) -> u16
    ensures { result ≡ first_unwanted (flag wanted.now) path.now }
{
    for k in path {
        if !flagged(wanted, *k) {
            return *k;
        }
    }
    0
}

// The branch that is opened once branch k is closed: the first unwanted one on the path between its ends, from the from bus.
pub fn opening(
    graph: Graph,
    live: [bool; Graph::MAX_BRANCHES],
    wanted: [bool; Graph::MAX_BRANCHES],
    k: u16,
) -> u16
    ensures { result ≡ row_opening graph live wanted k }
{
    let path = path_of_ends(graph, live, k);
    first_unwanted(&path.branch[..usize::from(path.count)], &wanted)
}
