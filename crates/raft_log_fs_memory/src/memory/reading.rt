//! Places that can't be read.
ghost use Rattle.std.specs.Prelude.{◌≡◌, ◌+◌, ◌<◌, ◌≤◌, ◌↔◌, true, false, IsTrue};
ghost use Rattle.raft_log_fs_memory.specs.Memory.{HasDenied, HasNoDenied};

use super::MemoryFileSystem;
use std::alloc::AllocError;

impl MemoryFileSystem {
    ghost use Rattle.std.specs.Prelude.{◌≡◌, OnOk, OnErr};
    ghost use Rattle.raft_log_fs.specs.Calls.{denied};
    ghost use Rattle.raft_log_fs_memory.specs.Memory.{disk_of, unsynced};
    ghost use Rattle.raft_log_fs_memory.specs.Turns.{armed};

    /// Makes the byte at an offset, `place`, of the file at a path unreadable: a read that asks for it fails with
    /// `Other`. The mark stays with the file, even if it is renamed or written. If the path names no file, nothing
    /// changes. Fails only if memory runs out.
    pub fn deny_read(&mut self, name: &str, place: usize) -> Result<(), AllocError>
        ensures same { armed self.new ≡ armed self.old }
        ensures order { unsynced self.new ≡ unsynced self.old }
        ensures ok { OnOk result (disk_of self.new ≡ denied name.now place (disk_of self.old)) }
        ensures err { OnErr result (disk_of self.new ≡ disk_of self.old) }
    {
        if let Some(file) = self.storage.file(name) {
            self.denied.push((file, place))?;
        }
        Ok(())
    }
}

// Whether one of the `count` bytes from `start` on can't be read.
pub(super) fn denies(marks: &[(usize, usize)], file: usize, start: usize, count: usize) -> bool
    ensures denied { result ≡ true → HasDenied marks.now file start count }
    ensures free { result ≡ false → HasNoDenied marks.now file start count }
{
    for mark in marks {
        if is_within(mark.0, mark.1, file, start, count) {
            return true;
        }
    }
    false
}

// Whether the mark is on one of the `count` bytes of this file from `start` on.
fn is_within(marked: usize, place: usize, file: usize, start: usize, count: usize) -> bool
    ensures { IsTrue result ↔ ((marked ≡ file) × (start ≤ place) × (place < start + count)) }
{
    marked == file && start <= place && place - start < count
}
