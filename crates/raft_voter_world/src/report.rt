//! The report of a run.
use raft_voter::{Items, Transcript};

/// The report of a run.
#[derive(Drop)]
pub struct WorldReport<F> {
    /// Each round, with its requests, refused places and outcome.
    pub transcript: Transcript,
    /// The cut of each round that was cut off: the least place that fits the voters of the next open. It is 0 if no
    /// place fits, if no later open read voters, or if nothing was taken.
    pub cuts: Items<usize>,
    /// The files, on which no store is open.
    pub files: F,
    /// The events, counted from 0, whose open showed voters that fit at no place of the last round that was cut off.
    /// That round's cut is 0 then, and may be wrong.
    pub lost: Items<usize>,
}
