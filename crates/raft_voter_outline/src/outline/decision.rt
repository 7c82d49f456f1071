//! The decision on a request, made before anything is written.
ghost use Rattle.std.specs.Prelude.{◌≡◌};
ghost use Rattle.raft_voter_outline.specs.Decisions.{entries_in};

use crate::{Items, Reply, Request, VoterState};

/// The decision on a request: its reply, and its change.
#[derive(Debug, Drop)]
pub struct Decision {
    /// The reply.
    pub answer: Answer,
    /// The change, if there is one.
    pub change: Option<Change>,
}

/// The reply, or the entries that the reply still needs.
#[derive(Debug, Drop)]
pub enum Answer {
    /// This reply. It is `Refused` exactly if the request is out of range.
    Told(Reply),
    /// The entries of these indexes. There is at least one, and all are in the log.
    Entries {
        /// The first index.
        from: u64,
        /// One past the last index.
        to: u64,
    },
}

/// What a request changes.
#[derive(Clone, Copy, Debug, PartialEq, Eq)]
pub struct Change {
    /// The voter's next state, as it is stored: with the base in place of the last entry.
    pub state: VoterState,
    /// What to do to its log.
    pub write: Write,
}

/// What to do to a log.
#[derive(Clone, Copy, Debug, PartialEq, Eq)]
pub enum Write {
    /// Nothing: only the state changes.
    StateAlone,
    /// Appends the request's entries, except the first ones, which are in the log. The log is truncated first, at the
    /// first appended index.
    Entries {
        /// How many of the request's entries are in the log.
        skipped: usize,
        /// The index of the first entry that is appended.
        index: u64,
    },
    /// Removes the entries up to an index.
    CompactTo {
        /// The last index to remove.
        index: u64,
    },
    /// Removes the group, its state too.
    Clean,
}

impl Write {
    /// Returns the entries of its request that are appended.
    pub fn brought<'a>(&self, request: &'a Request) -> &'a [(u64, Items<u8>)]
        ensures { result.now ≡ entries_in self.now request.now }
    {
        let (
            Write::Entries { skipped, index: _ },
            Request::Append {
                term: _,
                prev_index: _,
                prev_term: _,
                commit: _,
                entries,
            },
        ) = (self, request)
        else {
            return &[];
        };
        entries.as_slice().get(*skipped..).unwrap_or(&[])
    }
}
