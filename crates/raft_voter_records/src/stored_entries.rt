//! Entries of a voter in their stored form.
ghost use Rattle.std.specs.Prelude.{◌≡◌, ◌+◌, ◌<◌, ◌^◌, length};

use raft_log_record_batches::EntryWriter;
use raft_voter_messages::{Items, append_entry};
use std::alloc::AllocError;

/// Entries of a voter with consecutive indexes. Each is written in its stored form.
#[derive(Clone, Copy)]
pub struct StoredEntries<'a> {
    first: u64,
    entries: &'a [(u64, Items<u8>)],
    ghost small: { first + length entries.now < 2 ^ 64 },
}

impl<'a> StoredEntries<'a> {
    /// These entries, each with its term and its bytes, at the indexes from `first` on. The index after the last must
    /// be below 2^64.
    pub fn new(first: u64, entries: &'a [(u64, Items<u8>)]) -> StoredEntries<'a>
        requires { first + length entries.now < 2 ^ 64 }
        ensures first { result.first ≡ first }
        ensures entries { result.entries.now ≡ entries.now }
    {
        StoredEntries { first, entries }
    }
}

impl<'a> EntryWriter for StoredEntries<'a> {
    ghost use Rattle.raft_voter_records.specs.Entries.{entry_texts};

    ghost texts = { λ e. entry_texts e.first e.entries.now };

    fn len(&self) -> usize {
        self.entries.len()
    }

    fn append(&self, place: usize, out: &mut Vec<u8>) -> Result<(), AllocError> {
        let (term, own) = &self.entries[place];
        let index = self.first + place as u64;
        match append_entry(out, index, *term, own.as_slice()) {
            Ok(()) => Ok(()),
            Err(_) => Err(AllocError),
        }
    }
}
