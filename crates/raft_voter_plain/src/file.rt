//! A file in memory that loses its unsynced bytes in a crash.
ghost use Rattle.std.specs.Prelude.{◌≡◌, ◌<◌, [], ◌++◌, length, OnOk, OnErr};
ghost use Rattle.raft_voter_plain.specs.Content.{after_crash, empty_file, whole};

use raft_voter::Memory;
use std::alloc::Global;
use std::marker::Model;

/// An append-only file. Synced bytes survive a crash; bytes written since the last sync don't.
#[derive(Drop)]
pub struct PlainFile {
    bytes: Vec<u8>,
    synced: usize,
}

impl Model for PlainFile {
    ghost use Rattle.std.specs.Prelude.{◌≤◌, length, take, drop};
    ghost use Rattle.raft_voter_plain.specs.Content.{PlainContent};

    ghost Value = { PlainContent };

    ghost view = { λ f. record {
      synced = take f.synced f.bytes.items;
      unsynced = drop f.synced f.bytes.items;
    } };

    ghost invariant = { λ f. f.synced ≤ length f.bytes.items };
}

impl PlainFile {
    /// Returns an empty file.
    pub fn new(alloc: Global) -> PlainFile
        ensures { result ≡ empty_file }
    {
        PlainFile {
            bytes: Vec::new(alloc),
            synced: 0,
        }
    }

    /// Returns what a read returns: all bytes, synced or not.
    pub fn bytes(&self) -> &[u8]
        ensures { result.now ≡ whole self.now }
    {
        self.bytes.as_slice()
    }

    /// Appends bytes. Memory can run out only if there are some; then nothing is written.
    pub fn append(&mut self, bytes: &[u8]) -> Result<(), Memory>
        ensures synced { self.new.synced ≡ self.old.synced }
        ensures ok { OnOk result (self.new.unsynced ≡ self.old.unsynced ++ bytes.now) }
        ensures err { OnErr result (self.new.unsynced ≡ self.old.unsynced) }
        ensures errors { OnErr result (0 < length bytes.now) }
    {
        self.bytes.extend_from_slice(bytes)?;
        Ok(())
    }

    /// Syncs all that was written.
    pub fn sync(&mut self)
        ensures synced { self.new.synced ≡ whole self.old }
        ensures unsynced { self.new.unsynced ≡ [] }
    {
        self.synced = self.bytes.len();
    }

    /// Crashes: the unsynced bytes are lost.
    pub fn crash(&mut self)
        ensures { self.new ≡ after_crash self.old }
    {
        self.bytes.truncate(self.synced);
    }
}
