//! Reads a group's entries.
ghost use Rattle.std.specs.Prelude.{◌≡◌, IfErr, IfOk};
ghost use Rattle.raft_log_engine.specs.raft_log_engine_core.specs.Reads.{shows_of};
ghost use Rattle.raft_log_engine.specs.raft_log_engine_laws.specs.Fetching.{StaysButBlock};

use super::LogVoterStore;
use crate::entries::read_entries;
use raft_log_engine::{Error, PipeLog, Result};
use raft_log_record_items::{RawEntries, RawMessage};
use raft_voter_messages::{Entry, Items};

impl<P: PipeLog> LogVoterStore<P> {
    ghost use Rattle.raft_voter_store.specs.Reading.{FailsToReadEntries, ReadsEntriesTo};

    /// The entries of a group from index `low` on, below `high`: always the first, and more while they take at most
    /// `max_size` bytes together. An entry takes 17 bytes, for a form byte, its index and its term, and as many as it has
    /// data. Returns none if none are asked for, or if the group has no stored voter. Nothing changes except the block
    /// that the engine caches.
    ///
    /// A law of `raft_voter_log` says that they are the first of the stored voter's entries between these indexes, and
    /// how many.
    ///
    /// # Errors
    /// - `Failed` if the engine has failed. Then nothing is read.
    /// - `EntryCompacted` if the group has entries, and `low` isn't above the base.
    /// - `EntryNotFound` if the group has no entries, or `high` is above the index after the last one.
    /// - `Io` if the file of an entry can't be read.
    /// - `Memory`.
    pub fn entries(
        &mut self,
        group: u64,
        low: u64,
        high: u64,
        max_size: Option<usize>,
    ) -> Result<Items<Entry>>
        ensures ok { IfOk result (λ entries. ReadsEntriesTo group low high max_size
            (shows_of P.shown self.old.engine) (shows_of P.shown self.new.engine) entries) }
        ensures err { IfErr result (λ error. FailsToReadEntries group low high max_size
            (shows_of P.shown self.old.engine) (shows_of P.shown self.new.engine) error) }
        ensures stays { StaysButBlock
            (shows_of P.shown self.old.engine) (shows_of P.shown self.new.engine) }
        ensures outlines { self.new.outlines ≡ self.old.outlines }
        ensures work { self.new.work ≡ self.old.work }
    {
        let mut messages: Vec<RawMessage> = Vec::new(self.alloc);
        match self
            .engine
            .fetch_entries_to::<RawEntries>(group, low, high, max_size, &mut messages)
        {
            Ok(_) => match read_entries(self.alloc, low, messages.as_slice()) {
                Ok(entries) => Ok(entries),
                Err(_) => Err(Error::Memory),
            },
            Err(error) => Err(error),
        }
    }
}
