//! Where an entry is in a list of runs.

use crate::Run;

/// Where an entry is in a list of runs.
#[derive(Clone, Copy, Debug)]
pub struct Spot {
    /// The position of its run among the others.
    pub at: usize,
    /// The run.
    pub run: Run,
    /// The position of the run's first start among the others.
    pub from: usize,
    /// How many entries of the run are before it.
    pub within: usize,
}
