//! Calls that make a file longer, first on the device. If there is no room on it, the file keeps its bytes, the failure
//! is counted, and the file system doesn't stop.
use super::DirectoryFileSystem;
use super::checks::stopping;
use crate::device::{Attempt, Device};
use raft_log_fs::Handle;
use std::io::ErrorKind;

impl<D: Device> DirectoryFileSystem<D> {
    ghost use Rattle.std.specs.Prelude.{◌≡◌, OnOk, IfErr};
    ghost use Rattle.raft_log_fs.specs.Disk.{Wrote, GrewTo};
    ghost use Rattle.raft_log_fs.specs.Exits.{Writes, FailsToWrite, Grows, FailsToGrow};
    ghost use Rattle.raft_log_fs_traced.specs.Directory.{disk_of, RunsWithWriter};
    ghost use Rattle.raft_log_fs_traced.specs.Space.{GoesOnAfterUndone};

    /// Whether a write of `count` bytes at an offset ends past the end of a file. A write of no bytes doesn't.
    pub(super) fn is_past_end(&self, file: usize, offset: usize, count: usize) -> bool {
        0 < count && self.storage.size(file) < offset.saturating_add(count)
    }

    /// Writes bytes past the end of a handle's file.
    pub(super) fn extend(
        &mut self,
        handle: Handle,
        offset: usize,
        bytes: &[u8],
    ) -> Result<(), ErrorKind>
        requires { RunsWithWriter D.Device handle self.old }
        ensures ok { OnOk result
            (Writes handle offset bytes.now (disk_of D.Device self.old) (disk_of D.Device self.new)) }
        ensures err { IfErr result (λ error. FailsToWrite handle offset bytes.now error
            (disk_of D.Device self.old) (disk_of D.Device self.new)) }
        ensures undone { IfErr result (λ error. GoesOnAfterUndone D.Device handle.file
            (Wrote offset bytes.now) error self.old self.new) }
    {
        let file = handle.file;
        if let Err(kind) = self
            .storage
            .make_room(file, offset.saturating_add(bytes.len()))
        {
            return Err(self.fail(kind));
        }
        match self.device.extend(file, offset, bytes) {
            Ok(Attempt::Made) => {
                let written = self.storage.write(file, offset, bytes, u64::MAX);
                stopping(&mut self.stopped, written)
            }
            Ok(Attempt::Undone) => {
                let noted = self.storage.write_front(file, offset, bytes, 0, u64::MAX);
                stopping(&mut self.stopped, noted)?;
                Err(self.count_lack(file))
            }
            Err(kind) => stopping(&mut self.stopped, Err(kind)),
        }
    }

    /// Grows a handle's file with zeros to a size.
    pub(super) fn grow(&mut self, handle: Handle, size: usize) -> Result<(), ErrorKind>
        requires { RunsWithWriter D.Device handle self.old }
        ensures ok { OnOk result
            (Grows handle size (disk_of D.Device self.old) (disk_of D.Device self.new)) }
        ensures err { IfErr result (λ error. FailsToGrow handle size error
            (disk_of D.Device self.old) (disk_of D.Device self.new)) }
        ensures undone { IfErr result (λ error. GoesOnAfterUndone D.Device handle.file
            (GrewTo size) error self.old self.new) }
    {
        let file = handle.file;
        if let Err(kind) = self.storage.make_room(file, size) {
            return Err(self.fail(kind));
        }
        match self.device.grow(file, size) {
            Ok(Attempt::Made) => {
                let grown = self.storage.grow(file, 0, size, u64::MAX);
                stopping(&mut self.stopped, grown)
            }
            Ok(Attempt::Undone) => {
                let noted = self.storage.fail_to_grow(file, size);
                stopping(&mut self.stopped, noted)?;
                Err(self.count_lack(file))
            }
            Err(kind) => stopping(&mut self.stopped, Err(kind)),
        }
    }
}
