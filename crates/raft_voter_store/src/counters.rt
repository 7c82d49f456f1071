//! What a store counts.
ghost use Rattle.std.specs.Prelude.{◌≡◌};
ghost use Rattle.raft_voter_store.specs.Counting.{no_work, with_purge, with_round, with_step, with_sync};

use raft_log_engine::FileSeq;

/// The work of a store since it was opened. A number that reaches 2^64 - 1 stays there.
#[derive(Clone, Copy, Debug, PartialEq, Eq)]
pub struct WorkCounters {
    /// Rounds that returned replies, or were cut off as `FileSystem`.
    pub rounds: u64,
    /// The requests of these rounds, with those that were refused.
    pub requests: u64,
    /// Syncs that succeeded: one for each round with replies that wrote a record, and one for each call of `sync`. The
    /// syncs of purges and of a close aren't counted.
    pub syncs: u64,
    /// Purges that succeeded. The steps of `purge_some` count as one, with the step that leaves nothing to do.
    pub purges: u64,
}

/// What a store has done, and how large its log is.
#[derive(Clone, Copy, Debug, PartialEq, Eq)]
pub struct StoreCounters {
    /// The work since the store was opened.
    pub work: WorkCounters,
    /// The bytes of both queues, with each file counted at its target size; at most 2^64 - 1.
    pub used_bytes: usize,
    /// The numbers of the first and the last file of Append.
    pub append_files: (FileSeq, FileSeq),
    /// The numbers of the first and the last file of Rewrite.
    pub rewrite_files: (FileSeq, FileSeq),
}

impl WorkCounters {
    /// No work.
    pub(crate) fn new() -> WorkCounters
        ensures { result ≡ no_work }
    {
        WorkCounters {
            rounds: 0,
            requests: 0,
            syncs: 0,
            purges: 0,
        }
    }

    /// The counters after a round of this many requests, with its sync if it made one.
    pub(crate) fn with_round(self, requests: usize, synced: bool) -> WorkCounters
        ensures { result ≡ with_round self requests synced }
    {
        let round = WorkCounters {
            rounds: self.rounds.saturating_add(1),
            requests: self.requests.saturating_add(requests as u64),
            syncs: self.syncs,
            purges: self.purges,
        };
        if synced {
            return round.with_sync();
        }
        round
    }

    /// The counters after a sync.
    pub(crate) fn with_sync(self) -> WorkCounters
        ensures { result ≡ with_sync self }
    {
        WorkCounters {
            syncs: self.syncs.saturating_add(1),
            ..self
        }
    }

    /// The counters after a purge.
    pub(crate) fn with_purge(self) -> WorkCounters
        ensures { result ≡ with_purge self }
    {
        WorkCounters {
            purges: self.purges.saturating_add(1),
            ..self
        }
    }

    /// The counters after a step of a purge. `more` says whether the purge has more to do.
    pub(crate) fn with_step(self, more: bool) -> WorkCounters
        ensures { result ≡ with_step self more }
    {
        if more { self } else { self.with_purge() }
    }
}
