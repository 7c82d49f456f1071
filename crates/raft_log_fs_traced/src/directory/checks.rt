//! What is checked before a call, how a failure is counted, and how a device call ends.
ghost use Rattle.std.specs.Prelude.{◌≡◌, true, OnOk, OnErr};
ghost use Rattle.raft_log_fs_traced.specs.Directory.{IsToldOf};

use super::DirectoryFileSystem;
use crate::device::Device;
use raft_log_fs::{Handle, Permission, told_at_stop};
use raft_log_fs_state::Node;
use std::io::ErrorKind;

impl<D: Device> DirectoryFileSystem<D> {
    ghost use Rattle.std.specs.Prelude.{◌≡◌, true, OnOk, OnErr, IfErr};
    ghost use Rattle.raft_log_fs.specs.Arguments.{IsAfterStop};
    ghost use Rattle.raft_log_fs_state.specs.Storage.{contents_of};
    ghost use Rattle.raft_log_fs_traced.specs.Space.{full_of};
    ghost use Rattle.raft_log_fs_traced.specs.Directory.{calls_of, disk_of, FailsOnce, Runs, RunsWithDirectory, RunsWithFile, RunsWithWriter, LacksDirectory, LacksFile, LacksWriter};

    /// Counts a failure, and notes the kind that it is reported as. If the count is full, the file system stops
    /// instead: none is noted, and the error isn't out of memory.
    pub(super) fn fail(&mut self, kind: ErrorKind) -> ErrorKind
        ensures once { FailsOnce kind result (disk_of D.Device self.old) (disk_of D.Device self.new) }
        ensures calls { calls_of D.Device self.new ≡ calls_of D.Device self.old }
        ensures full { full_of D.Device self.new ≡ full_of D.Device self.old }
        ensures model { contents_of self.new.storage ≡ contents_of self.old.storage }
    {
        match self.failures.checked_add(1) {
            Some(failures) => {
                self.failures = failures;
                self.kinds.note(&kind);
                kind
            }
            None => {
                self.stopped = true;
                told_at_stop(kind)
            }
        }
    }

    /// Fails if the file system has stopped.
    pub(super) fn check_runs(&self) -> Result<(), ErrorKind>
        ensures ok { OnOk result (Runs D.Device self.now) }
        ensures err { IfErr result (IsAfterStop (disk_of D.Device self.now)) }
    {
        if self.stopped {
            Err(ErrorKind::Other)
        } else {
            Ok(())
        }
    }

    /// Fails if the file system has stopped, or if a path isn't a directory's.
    pub(super) fn check_directory(&self, path: &str) -> Result<(), ErrorKind>
        ensures ok { OnOk result (RunsWithDirectory D.Device path.now self.now) }
        ensures err { IfErr result (LacksDirectory path.now (disk_of D.Device self.now)) }
    {
        self.check_runs()?;
        match self.storage.node(path) {
            Some(Node::Directory) => Ok(()),
            Some(Node::File(_)) => Err(ErrorKind::InvalidInput),
            None => Err(ErrorKind::NotFound),
        }
    }

    /// Fails if the file system has stopped, or if a handle's file was deleted.
    pub(super) fn check_handle(&self, handle: Handle) -> Result<(), ErrorKind>
        ensures ok { OnOk result (RunsWithFile D.Device handle self.now) }
        ensures err { IfErr result (LacksFile handle (disk_of D.Device self.now)) }
    {
        self.check_runs()?;
        if self.storage.has(handle.file) {
            Ok(())
        } else {
            Err(ErrorKind::NotFound)
        }
    }

    /// Fails as `check_handle` does, or if a handle may only read.
    pub(super) fn check_writer(&self, handle: Handle) -> Result<(), ErrorKind>
        ensures ok { OnOk result (RunsWithWriter D.Device handle self.now) }
        ensures err { IfErr result (LacksWriter handle (disk_of D.Device self.now)) }
    {
        self.check_handle(handle)?;
        match handle.permission {
            Permission::ReadWrite => Ok(()),
            Permission::ReadOnly => Err(ErrorKind::PermissionDenied),
        }
    }
}

/// Ends a device call: if it failed, the file system stops, and the error isn't out of memory.
pub(super) fn stopping<T>(stopped: &mut bool, made: Result<T, ErrorKind>) -> Result<T, ErrorKind>
    ensures told { IsToldOf made result }
    ensures ok { OnOk made (stopped.new ≡ stopped.old) }
    ensures err { OnErr made (stopped.new ≡ true) }
{
    match made {
        Ok(value) => Ok(value),
        Err(kind) => {
            *stopped = true;
            Err(told_at_stop(kind))
        }
    }
}
