//! The file system in memory: its parts, its constructor, and what a crash leaves of it.

mod calls;
mod reading;
mod space;
mod turns;

ghost use Rattle.raft_log_fs_state.specs.Storage.{IsStorageSound, IsWhole-prop};

use raft_log_fs::Kinds;
use raft_log_fs_state::{Remainder, Storage};
use std::alloc::{AllocError, Global};
use std::collections::BTreeMap;

/// A file system in memory, for tests and simulated crashes. It has no directory at first.
#[derive(Drop)]
pub struct MemoryFileSystem {
    storage: Storage,
    failures: u64,
    kinds: Kinds,
    stopped: bool,
    // How many changing calls there are up to each failure; up to each partial failure, with the number of bytes that a
    // write writes there; and up to the stop, or 0. `after`: whether the call at the stop is done.
    refusals: Vec<u64>,
    parts: Vec<(u64, usize)>,
    stop: u64,
    after: bool,
    // The places that can't be read, each with its file's node number.
    denied: Vec<(usize, usize)>,
    // How many bytes the files of a directory may have in all, for each directory that has a limit.
    spaces: BTreeMap<String, u64>,
    ghost whole: { IsStorageSound storage } by { IsWhole-prop storage },
}

impl MemoryFileSystem {
    ghost use Rattle.std.specs.Prelude.{◌≡◌, [], IfOk};
    ghost use Rattle.raft_log_fs.specs.Image.{IsImage};
    ghost use Rattle.raft_log_fs_memory.specs.Answers.{IsLeftOf};
    ghost use Rattle.raft_log_fs.specs.Disk.{empty_disk};
    ghost use Rattle.raft_log_fs_memory.specs.Memory.{disk_of, unsynced};
    ghost use Rattle.raft_log_fs_memory.specs.Turns.{armed, nothing_armed};

    /// A file system without directories and files.
    pub fn new(alloc: Global) -> MemoryFileSystem
        ensures empty { disk_of result ≡ empty_disk }
        ensures synced { unsynced result ≡ [] }
        ensures unarmed { armed result ≡ nothing_armed }
    {
        MemoryFileSystem {
            storage: Storage::new(alloc),
            failures: 0,
            kinds: Kinds::new(),
            stopped: false,
            refusals: Vec::new(alloc),
            parts: Vec::new(alloc),
            denied: Vec::new(alloc),
            spaces: BTreeMap::new(alloc),
            stop: 0,
            after: false,
        }
    }

    /// How many failures were counted: changing calls that failed, except for a wrong argument.
    pub fn failures(&self) -> u64
        ensures { result ≡ (disk_of self.now).failures }
    {
        self.failures
    }

    /// The file system that a restart finds after a crash now, whether this one has stopped or not. `what` chooses what
    /// is left of the unsynced changes. Fails only if memory runs out.
    /// - The names are unchanged, and a gap before what is left of a write is zeros.
    /// - No fault is armed, each place can be read, no space is set, and no failure is counted.
    pub fn remainder(&self, what: &Remainder) -> Result<MemoryFileSystem, AllocError>
        ensures exact { IfOk result (IsLeftOf what.now self.now) }
        ensures synced { IfOk result (λ after. unsynced after ≡ []) }
        ensures image { IfOk result (λ after. IsImage (disk_of self.now) (disk_of after)) }
        ensures unarmed { IfOk result (λ after. armed after ≡ nothing_armed) }
    {
        let storage = self.storage.left(what)?;
        Ok(MemoryFileSystem {
            storage,
            failures: 0,
            kinds: Kinds::new(),
            stopped: false,
            refusals: Vec::new(self.storage.alloc),
            parts: Vec::new(self.storage.alloc),
            denied: Vec::new(self.storage.alloc),
            spaces: BTreeMap::new(self.storage.alloc),
            stop: 0,
            after: false,
        })
    }
}
