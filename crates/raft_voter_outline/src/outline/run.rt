//! A run of entries of one term.

/// Consecutive entries of one term. The first follows the last entry of the run before, or the base.
#[derive(Clone, Copy, Debug)]
pub struct Run {
    /// The index of the last of the entries.
    pub last: u64,
    /// The entries' term.
    pub term: u64,
}
