//! Space that is set for directories.
ghost use Rattle.std.specs.Prelude.{◌↔◌, IsTrue};
ghost use Rattle.raft_log_fs.specs.Disk.{IsPathIn};

use super::MemoryFileSystem;
use raft_log_fs_state::storage::child;
use std::alloc::AllocError;

impl MemoryFileSystem {
    ghost use Rattle.std.specs.Prelude.{◌≡◌, ◌↔◌, ℕ, ◌-◌, IsTrue, Some, OnOk, OnErr};
    ghost use Rattle.raft_log_fs_memory.specs.Memory.{disk_of, unsynced};
    ghost use Rattle.raft_log_fs_memory.specs.Space.{size_at, HasUsed, IsFree, LiesIn, MayGrowBy};
    ghost use Rattle.raft_log_fs_memory.specs.Turns.{armed, with_space};

    /// Limits the files of a directory to so many bytes in all, replacing an earlier limit. A write or an allocation
    /// that would make them grow past it fails with `StorageFull`, is counted, and nothing of it is done. Files that
    /// are longer already keep their bytes. Fails only if memory runs out.
    pub fn set_space(&mut self, directory: &str, bytes: u64) -> Result<(), AllocError>
        ensures same { disk_of self.new ≡ disk_of self.old }
        ensures order { unsynced self.new ≡ unsynced self.old }
        ensures ok { OnOk result (armed self.new ≡ with_space directory.now bytes (armed self.old)) }
        ensures err { OnErr result (armed self.new ≡ armed self.old) }
    {
        let directory = String::from_str(self.storage.alloc, directory)?;
        match self.spaces.insert(directory, bytes) {
            Ok(_) => Ok(()),
            Err(_) => Err(AllocError),
        }
    }

    // By how many bytes a directory's files may still grow; 2^64 - 1 if no space is set for it.
    pub(super) fn free_in(&self, directory: &str) -> u64
        ensures { IsFree (armed self.now).spaces directory.now (disk_of self.now) result }
    {
        match self.spaces.get(directory) {
            Some(space) => self.space_left(directory, *space),
            None => u64::MAX,
        }
    }

    // By how many bytes a file may still grow.
    pub(super) fn free_for(&self, file: usize) -> u64
        ensures { MayGrowBy (armed self.now).spaces file (disk_of self.now) result }
    {
        for (directory, _) in self.spaces.iter() {
            if self.lies_in(file, directory) {
                return self.free_in(directory);
            }
        }
        u64::MAX
    }

    // How many bytes a directory's files leave of its space.
    fn space_left(&self, directory: &str, space: u64) -> u64
        ensures { (used : ℕ) × HasUsed directory.now (disk_of self.now) used × (result ≡ space - used) }
    {
        let mut left = space;
        for (path, node) in self.storage.paths.iter() {
            if let Some(_name) = child(directory, path, *node) {
                left = left.saturating_sub(self.size_at(path));
            }
        }
        left
    }

    // The size of the file at a path in bytes; 0 if there is none.
    fn size_at(&self, path: &str) -> u64
        ensures { result ≡ size_at (disk_of self.now) path.now }
    {
        match self.storage.file(path) {
            Some(id) => self.storage.size(id) as u64,
            None => 0,
        }
    }

    // Whether a file is in a directory.
    fn lies_in(&self, file: usize, directory: &str) -> bool
        ensures { IsTrue result ↔ LiesIn file directory.now (disk_of self.now) }
    {
        for (path, _) in self.storage.paths.iter() {
            if self.names(path, file) && is_within(directory, path) {
                return true;
            }
        }
        false
    }

    // Whether a path names this file.
    fn names(&self, path: &str, file: usize) -> bool
        ensures { IsTrue result ↔ ((disk_of self.now).names path.now ≡ Some file) }
    {
        match self.storage.file(path) {
            Some(other) => other == file,
            None => false,
        }
    }
}

// Whether a path is a directory's, a slash, and a name.
fn is_within(directory: &str, path: &str) -> bool
    ensures { IsTrue result ↔ IsPathIn directory.now path.now }
{
    let Some(at) = path.rfind('/') else {
        return false;
    };
    &path[..at] == directory
}
