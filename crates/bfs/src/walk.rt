// Translated and changed from src/network/reconfiguration.rs of oxigrid. Copyright 2024-2026 COOLJAPAN OU (Team Kitasan), Apache License 2.0.
// The breadth-first walk, by the rows: its own order is its queue.
ghost use Rattle.std.specs.Prelude.{◌≡◌, List, ℕ};
ghost use Rattle.graph.specs.Walk.{Visit, walk_by, enter_all};
ghost use Rattle.graph.specs.Rows.{row_neighbours, walked};
ghost use Rattle.graph.specs.Walking.{enter_live};
ghost use Rattle.bfs.specs.Reaches.{Reaches};

use graph::rows::Graph;
use graph::walks::Walk;

// The walk so far, and a mark at each bus that is not to be entered: those reached.
// Which visits that are, its methods require, and no ghost field says it: a ghost field has one proof at most, and no field fixes the barred bus.
#[derive(Drop)]
struct Reached {
    seen: [bool; Graph::MAX_BUSES],
    walk: Walk,
}

impl Reached {
    // Bus x is put behind those reached, with branch k, unless the branch is not live or the bus is marked.
    fn enter(&mut self, live: bool, x: u8, k: u16)
        requires { (barred : ℕ) × (o : List Visit) × Reaches barred o self.old }
        ensures { (barred : ℕ) (o : List Visit) → Reaches barred o self.old
            → Reaches barred (enter_live live barred o (record { bus = x; by = k })) self.new }
    {
        let at = usize::from(x);
        if !live || self.seen[at] {
            return;
        }
        self.seen[at] = true;
        let end = usize::from(self.walk.count);
        self.walk.bus[end] = x;
        self.walk.by[end] = k;
        self.walk.count += 1;
    }

    // The far ends of bus u's row are entered, by rising branch position: MAX_HALVES at most, so that any row ends.
    fn expand(&mut self, graph: &Graph, live: &[bool; Graph::MAX_BRANCHES], u: u8)
        requires { (barred : ℕ) × (o : List Visit) × Reaches barred o self.old }
        ensures { (barred : ℕ) (o : List Visit) → Reaches barred o self.old
            → Reaches barred (enter_all barred o (row_neighbours graph.now live.now u)) self.new }
    {
        let mut h = graph.first[usize::from(u)];
        for _ in 0..Graph::MAX_HALVES {
            if Graph::NO_HALF <= h {
                return;
            }
            let half = usize::from(h);
            let k = h / 2;
            let at = usize::from(k);
            self.enter(live[at], graph.far[half], k);
            h = graph.next[half];
        }
    }
}

// The walk by the rows of a graph.
fn walk_rows(graph: &Graph, live: &[bool; Graph::MAX_BRANCHES], start: u8) -> Walk
    ensures { result ≡ walked (walk_by (row_neighbours graph.now live.now) start start) }
{
    let mut reached = Reached {
        seen: [false; Graph::MAX_BUSES],
        walk: Walk {
            count: 1,
            bus: [0; Graph::MAX_BUSES],
            by: [0; Graph::MAX_BUSES],
        },
    };
    reached.seen[usize::from(start)] = true;
    reached.walk.bus[0] = start;
    let mut head = 0u16;
    // The queue grows while it is worked off, so that no range gives its positions.
    while head < reached.walk.count {
        let u = reached.walk.bus[usize::from(head)];
        reached.expand(graph, live, u);
        head += 1;
    }
    reached.walk
}

// The buses that a walk from start reaches, in the order in which it reaches them, each with its branch.
pub fn walk(graph: Graph, live: [bool; Graph::MAX_BRANCHES], start: u8) -> Walk
    ensures { result ≡ walked (walk_by (row_neighbours graph live) start start) }
{
    walk_rows(&graph, &live, start)
}
