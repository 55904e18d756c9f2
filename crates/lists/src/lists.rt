// Translated and changed from src/network/reconfiguration.rs of oxigrid. Copyright 2024-2026 COOLJAPAN OU (Team Kitasan), Apache License 2.0.
// The neighbours of each bus by live branches, one list behind the other in one array: for callers that walk often over the same live branches.
ghost use Rattle.std.specs.Prelude.{◌≡◌, List, ◌++◌, ℕ};
ghost use Rattle.graph.specs.Walk.{Visit, walk_by, enter, enter_all};
ghost use Rattle.graph.specs.Rows.{row_from, leads};
ghost use Rattle.graph.specs.Visits.{visit, buses_of};
ghost use Rattle.lists.specs.Lists.{list_live, live_lists, listed, bus_load};
ghost use Rattle.lists.specs.Held.{Listed, Reaches};

use graph::rows::Graph;

// The list of bus u is near from at[u] to at[u + 1].
#[derive(Clone, Copy)]
pub struct LiveLists {
    pub at: [u16; Graph::MAX_BUSES + 1],
    pub near: [u8; Graph::MAX_HALVES],
}

// The entries of the lists so far: those of near in front of end.
#[derive(Drop)]
struct Entries {
    near: [u8; Graph::MAX_HALVES],
    end: u16,
}

impl Entries {
    // Bus x is put behind those listed, by a live branch and where there is room.
    fn put_behind(&mut self, live: bool, x: u8)
        ensures { (l : List ℕ) → Listed l self.old → Listed (list_live live l x) self.new }
    {
        let at = usize::from(self.end);
        if live && at < Graph::MAX_HALVES {
            self.near[at] = x;
            self.end += 1;
        }
    }

    // The far ends of the row that begins with half-branch first are listed: MAX_HALVES at most, so that any row ends.
    fn list_row(&mut self, graph: &Graph, live: &[bool; Graph::MAX_BRANCHES], first: u16)
        ensures { (l : List ℕ) → Listed l self.old
            → Listed (l ++ buses_of (leads graph.now.far live.now (row_from graph.now.next 1024 first))) self.new }
    {
        let mut h = first;
        for _ in 0..Graph::MAX_HALVES {
            if Graph::NO_HALF <= h {
                return;
            }
            let half = usize::from(h);
            self.put_behind(live[half / 2], graph.far[half]);
            h = graph.next[half];
        }
    }
}

// The lists of a graph's buses, read off their rows, MAX_HALVES entries at most: room for every list of a graph of at most MAX_BUSES buses
// that Graph::new made.
pub fn live_lists(graph: Graph, live: &[bool; Graph::MAX_BRANCHES]) -> LiveLists
    ensures { result ≡ live_lists graph live.now }
{
    let n = usize::from(graph.bus_count).min(Graph::MAX_BUSES);
    let mut at = [0u16; Graph::MAX_BUSES + 1];
    let mut entries = Entries {
        near: [0; Graph::MAX_HALVES],
        end: 0,
    };
    for (u, first) in graph.first[..n].iter().enumerate() {
        entries.list_row(&graph, live, *first);
        at[u + 1] = entries.end;
    }
    LiveLists {
        at,
        near: entries.near,
    }
}

// The buses that a walk has reached: the first count entries of bus, which are its queue. Those that are not to be entered are marked: barred, or reached.
#[derive(Drop)]
struct Reached {
    seen: [bool; Graph::MAX_BUSES],
    // Eight bits an entry. What counts entries goes up to 256 and is wider: from a branch with equal ends the walk bars nothing but its own start, so all 256
    // buses of a connected feeder come to stand in the queue. From any other branch one bus is barred, and at most 255 do.
    bus: [u8; Graph::MAX_BUSES],
    count: u16,
}

impl Reached {
    // Bus x is put behind those reached, unless it is marked.
    fn enter(&mut self, x: u8)
        requires { (barred : ℕ) × (o : List Visit) × Reaches barred o self.old }
        ensures { (barred : ℕ) (o : List Visit) → Reaches barred o self.old → Reaches barred (enter barred o (visit x 0)) self.new }
    {
        let at = usize::from(x);
        if self.seen[at] {
            return;
        }
        self.seen[at] = true;
        let end = usize::from(self.count);
        self.bus[end] = x;
        self.count += 1;
    }

    // The buses of bus u's list are entered.
    fn expand(&mut self, at: &[u16; Graph::MAX_BUSES + 1], near: &[u8; Graph::MAX_HALVES], u: u8)
        requires { (barred : ℕ) × (o : List Visit) × Reaches barred o self.old }
        ensures { (barred : ℕ) (o : List Visit) → Reaches barred o self.old
            → Reaches barred (enter_all barred o (listed at.now near.now u)) self.new }
    {
        let row = usize::from(u);
        let from = usize::from(at[row]);
        let to = usize::from(at[row + 1]).min(Graph::MAX_HALVES);
        // By positions: a slice of near wants a from that is not past to, and with it a walk through a chain took a third longer.
        for i in from..to {
            self.enter(near[i]);
        }
    }
}

// The load of the buses that a walk by the lists reaches from start without entering the barred bus, added in the walk's order: each as its neighbours are entered.
pub fn walk_load(
    at: &[u16; Graph::MAX_BUSES + 1],
    near: &[u8; Graph::MAX_HALVES],
    mw: &[f64; Graph::MAX_BUSES],
    start: u8,
    barred: u8,
) -> f64
    ensures { result ≡ bus_load mw.now (walk_by (listed at.now near.now) start barred) }
{
    let mut reached = Reached {
        seen: [false; Graph::MAX_BUSES],
        bus: [0; Graph::MAX_BUSES],
        count: 1,
    };
    reached.seen[usize::from(barred)] = true;
    reached.seen[usize::from(start)] = true;
    reached.bus[0] = start;
    let mut total = 0.0;
    let mut head = 0u16;
    // The queue grows while it is worked off, so that no range gives its positions.
    while head < reached.count {
        let u = reached.bus[usize::from(head)];
        total += mw[usize::from(u)];
        reached.expand(at, near, u);
        head += 1;
    }
    total
}
