// What the walks answer.
use crate::rows::Graph;

// The buses that a walk reached, in order, and the branch by which each was reached: the first count entries, then 0. No branch leads
// to the first bus, and 0 stands there. Arrays with their count, and no slices: the answer holds what it found, in fixed memory.
#[derive(Clone, Copy)]
pub struct Walk {
    pub count: u16,
    pub bus: [u8; Graph::MAX_BUSES],
    pub by: [u16; Graph::MAX_BUSES],
}

// The branches of a path, in order: the first count entries, then 0. An array with its count for the same reason.
#[derive(Clone, Copy)]
pub struct PathBranches {
    pub count: u16,
    pub branch: [u16; Graph::MAX_BUSES],
}
