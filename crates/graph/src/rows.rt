// Translated and changed from src/network/reconfiguration.rs of oxigrid. Copyright 2024-2026 COOLJAPAN OU (Team Kitasan), Apache License 2.0.
// The branches of a feeder by their buses, in place of the source's map of neighbours.
ghost use Rattle.std.specs.Prelude.{◌≡◌, ◌<◌};
ghost use Rattle.graph.specs.Rows.{rows, with_rows, put_half, put_branch, far_of, graph_of};

// Half-branch 2k is branch k at its from bus, half-branch 2k + 1 is branch k at its to bus; far has the bus at its other end.
// The row of a bus is its half-branches by rising position: first has the lowest, next the next higher one, NO_HALF is none.
#[derive(Clone, Copy)]
pub struct Graph {
    pub bus_count: u16,
    pub branch_count: u16,
    pub far: [u8; Graph::MAX_HALVES],
    pub first: [u16; Graph::MAX_BUSES],
    pub next: [u16; Graph::MAX_HALVES],
}

// The bus at the other end of each half-branch.
fn far_ends(
    from: &[u8; Graph::MAX_BRANCHES],
    to: &[u8; Graph::MAX_BRANCHES],
) -> [u8; Graph::MAX_HALVES]
    ensures { result ≡ far_of from.now to.now }
{
    let mut far = [0u8; Graph::MAX_HALVES];
    for k in 0..Graph::MAX_BRANCHES {
        far[2 * k] = to[k];
        far[2 * k + 1] = from[k];
    }
    far
}

impl Graph {
    // A bus position is a u8.
    pub const MAX_BUSES: usize = 256;

    // As many as a network has, which stands above: its arrays are handed over as a graph's, so that other lengths would not compile.
    pub const MAX_BRANCHES: usize = 512;

    // Each branch has two halves.
    pub const MAX_HALVES: usize = 2 * Graph::MAX_BRANCHES;

    // What stands in a row's first and next where there is no half-branch: one more than the last. An Option in its place would double both arrays.
    pub const NO_HALF: u16 = Graph::MAX_HALVES as u16;

    // From the last listed branch to the first, each in front of its buses' rows. Branches from branch_count on are in no row.
    pub fn new(
        bus_count: u16,
        branch_count: u16,
        from: [u8; Graph::MAX_BRANCHES],
        to: [u8; Graph::MAX_BRANCHES],
    ) -> Graph
        ensures { result ≡ graph_of bus_count branch_count from to }
    {
        let mut graph = Graph {
            bus_count,
            branch_count,
            far: far_ends(&from, &to),
            first: [Graph::NO_HALF; Graph::MAX_BUSES],
            next: [Graph::NO_HALF; Graph::MAX_HALVES],
        };
        let n = usize::from(branch_count).min(Graph::MAX_BRANCHES);
        for k in (0..n).rev() {
            graph.put_branch(k as u16, from[k], to[k]);
        }
        graph
    }

    // Branch k goes into the rows of its buses. With equal ends it stands there once.
    #[tactic(auto, unfolding(crate::specs::Rows::put_half, crate::specs::Rows::put_branch))]
    fn put_branch(&mut self, k: u16, from: u8, to: u8)
        requires { k < 512 }
        ensures { self.new ≡ with_rows self.old (put_branch k from to (rows self.old.first self.old.next)) }
    {
        let h = 2 * k;
        if from == to {
            self.put_half(from, h);
        } else {
            self.put_half(to, h + 1);
            self.put_half(from, h);
        }
    }

    // Half-branch h goes in front of bus u's row.
    #[tactic(auto, unfolding(crate::specs::Rows::put_half))]
    fn put_half(&mut self, u: u8, h: u16)
        requires { h < 1024 }
        ensures { self.new ≡ with_rows self.old (put_half u h (rows self.old.first self.old.next)) }
    {
        let at = usize::from(u);
        self.next[usize::from(h)] = self.first[at];
        self.first[at] = h;
    }
}
