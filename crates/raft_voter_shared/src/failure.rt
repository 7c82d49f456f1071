//! How a store failed.
ghost use Rattle.std.specs.Prelude.{◌≡◌};
ghost use Rattle.raft_voter_shared.specs.Purging.{failure_in_purge};
ghost use Rattle.raft_voter_shared.specs.Standing.{failure_behind};

use raft_voter::Cause;

/// How a store failed while it was shared, if it hadn't failed before: a file call failed.
#[derive(Clone, Copy, Debug, PartialEq, Eq)]
pub enum Failure {
    /// In rounds that it served together, and that were cut off as one round. Their records are at these places of the
    /// journal. Their requests, except the refused ones, were taken up to some place.
    InRounds {
        /// The place of the first record, counted from 0.
        first: usize,
        /// The place after that of the last record.
        end: usize,
    },
    /// In a purge, which changes no voter.
    InPurge,
}

/// Returns how a store has failed after rounds with these places were cut off together for this cause. For `FileSystem`
/// it is `InRounds`; for another cause it is what was noted before.
pub fn failure_behind(
    cause: Cause,
    first: usize,
    end: usize,
    failure: Option<Failure>,
) -> Option<Failure>
    ensures { result ≡ failure_behind cause first end failure }
{
    match cause {
        Cause::FileSystem => Some(Failure::InRounds { first, end }),
        _ => failure,
    }
}

/// Returns how a store has failed after a purge: `InPurge` if it failed in the purge, otherwise what was noted before.
/// The flags say whether it had failed before and has failed after it.
pub fn failure_in_purge(before: bool, now: bool, failure: Option<Failure>) -> Option<Failure>
    ensures { result ≡ failure_in_purge before now failure }
{
    if !before && now {
        return Some(Failure::InPurge);
    }
    failure
}
