// Document 02's loss counts the side of a live branch that does not hold the supply bus. The live branches are drawn away from it, and all that takes a branch's to bus
// for its far end serves both losses.
ghost use Rattle.std.specs.Prelude.{◌≡◌, take};
ghost use Rattle.drawing.specs.Drawing.{places_of, is_turned, drawn_ends, drawn_graph};

use bfs::walk::walk;
use graph::rows::Graph;
use graph::walks::Walk;

// The place of each bus in the order of a walk; one that the walk did not reach stands behind all. From the last to the first: the first place of a bus stays.
// A number and no Option, as places_of in specs/ has it: places are compared, and None would stand in front.
fn places_of(walk: &Walk) -> [u16; Graph::MAX_BUSES]
    ensures { result ≡ places_of (take walk.now.count walk.now.bus) }
{
    let n = usize::from(walk.count).min(Graph::MAX_BUSES);
    let mut places = [n as u16; Graph::MAX_BUSES];
    for place in (0..n).rev() {
        places[usize::from(walk.bus[place])] = place as u16;
    }
    places
}

// Whether a branch is turned: it is live, and the walk reaches its to bus before its from bus.
#[tactic(auto, unfolding(crate::specs::Drawing::is_turned))]
fn is_turned(live: bool, places: &[u16; Graph::MAX_BUSES], from: u8, to: u8) -> bool
    ensures { result ≡ is_turned live places.now from to }
{
    live && places[usize::from(to)] < places[usize::from(from)]
}

// The ends of each branch: two arrays, as Graph::new takes them.
#[derive(Clone, Copy)]
struct Ends {
    from: [u8; Graph::MAX_BRANCHES],
    to: [u8; Graph::MAX_BRANCHES],
}

// Of a graph's branches, each live one with the end that is reached later as its to bus; those behind them are left at 0.
fn draw_ends(
    graph: &Graph,
    live: &[bool; Graph::MAX_BRANCHES],
    places: &[u16; Graph::MAX_BUSES],
) -> Ends
    ensures { result ≡ drawn_ends graph.now.far live.now places.now graph.now.branch_count }
{
    let n = usize::from(graph.branch_count).min(Graph::MAX_BRANCHES);
    let mut from = [0u8; Graph::MAX_BRANCHES];
    let mut to = [0u8; Graph::MAX_BRANCHES];
    for k in 0..n {
        let to_bus = graph.far[2 * k];
        let from_bus = graph.far[2 * k + 1];
        (from[k], to[k]) = if is_turned(live[k], places, from_bus, to_bus) {
            (to_bus, from_bus)
        } else {
            (from_bus, to_bus)
        };
    }
    Ends { from, to }
}

// The graph with each live branch drawn away from a bus, by the order of one walk from there. In a tree the to bus of a live branch is then on the side without that bus (specs/DrawingLaws).
pub fn drawn_from(graph: Graph, live: [bool; Graph::MAX_BRANCHES], supply: u8) -> Graph
    ensures { result ≡ drawn_graph graph live supply }
{
    let places = places_of(&walk(graph, live, supply));
    let ends = draw_ends(&graph, &live, &places);
    Graph::new(graph.bus_count, graph.branch_count, ends.from, ends.to)
}
