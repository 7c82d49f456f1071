//! The file system that a store needs.

ghost use Rattle.std.specs.Prelude.{◌≡◌, ℕ, ◌+◌, ◌≤◌, ◌↔◌, Bool, true, List, length, IsTrue, IfOk, IfErr, OnOk, OnErr, map};
ghost use Rattle.std.specs.String.{string_bytes};
ghost use Rattle.raft_log_fs.specs.Disk.{Disk};
ghost use Rattle.raft_log_fs.specs.declared.handle.Fault.{Fault};
ghost use Rattle.raft_log_fs.specs.Image.{IsSound};
ghost use Rattle.raft_log_fs.specs.Calls.{Creates, Deletes, Renames, MakesDirectory};
ghost use Rattle.raft_log_fs.specs.Reading.{IsOpened, IsNotOpened, IsListing, IsNotListed, FillsRoom, AreReadable, IsUnread, IsSize, IsNotMeasured};
ghost use Rattle.raft_log_fs.specs.Exits.{FailsToCreate, FailsToDelete, FailsToRename, RenamesAndOpens, FailsToRenameAndOpen, FailsToMakeDirectory, LeavesAll, FailsWithoutChange, Writes, FailsToWrite, Shortens, FailsToShorten, Grows, FailsToGrow, Syncs, FailsToSync, Arms, IsUnarmed};

use super::handle::{Fault, Handle, Permission};
use super::receipt::Read;
use std::io::ErrorKind;

/// The file system that a store needs. Two paths are the same if and only if their bytes are. A file's path is its
/// directory's path, a slash and its name.
///
/// A *changing call* is one of `create` to `sync`. It fails in one of three ways:
/// - An argument was wrong in the present state. No failure is counted, and nothing changes.
/// - A failure is counted. A write may have written some of its bytes, and a truncation may have truncated the file. An
///   allocation may have grown it by some zeros. A call on names changed nothing, and a sync synced nothing.
/// - The file system stopped at the call. With right arguments, the call may also have been done in part or whole.
///
/// After a stop every call fails with `Other`, and nothing changes any more. Each file stays below 2^63 bytes: a call
/// that would grow it further fails.
///
/// The error says which argument was wrong. A counted failure may have any kind of error. That kind is kept with the
/// failure, so a caller that passes the error on can't report another one. At a stop the error may be of any kind but
/// `OutOfMemory`, and none is kept. A caller may rely on the error of a changing call only if the clauses say that an
/// argument was wrong.
///
/// `open`, `list` and `free_space` may also fail with `OutOfMemory`.
///
/// *Over a real directory.* `open`, `read_at` and `list` take `&self`, because readers and dumps borrow the file
/// system. An implementation keeps its descriptors in a table whose slots are written once. A place that the device
/// failed to read counts as unreadable from then on, and as having been so all along. So the failure must be
/// remembered. A creation, a deletion or a renaming is durable once it succeeds, so each of them syncs the directories
/// that it changed. If such a sync fails, it isn't known which names a crash leaves, and that is reported as a stop. A
/// failed sync of a file may be reported as a failure only if a later sync that succeeds writes what this one didn't.
/// Otherwise it is a stop too. Two spellings of one path are two paths here: the store uses one spelling of each, and
/// no link leads to its files.
pub trait FileSystem {
    /// What is on the disk, and what a crash may leave of it.
    ghost disk: { Self → Disk };

    /// What `free_space` may return for a directory. It isn't part of the disk, because others may use the same space.
    ghost tells_space: { Self → List ℕ → ℕ → Type 0 };

    /// Each read returns what the disk holds. If nothing can prove that of a device's reads, it is absurd.
    ghost tells_truth: { Type 0 };

    /// How arming a fault changes the file system, apart from its disk: which later calls fail, and how.
    ghost arms: { Fault → Self → Self → Type 0 };

    /// Makes an empty file, and returns a handle that may write it. Fails with `AlreadyExists` if a file or a directory
    /// has the path, or with `NotFound` if its directory doesn't exist.
    fn create(&mut self, path: &str) -> Result<Handle, ErrorKind>
        ensures ok { IfOk result (λ handle. Creates path.now handle.file (disk self.old) (disk self.new)) }
        ensures permission { IfOk result (λ handle. handle.permission ≡ Permission.ReadWrite) }
        ensures err { IfErr result (λ error. FailsToCreate path.now error (disk self.old) (disk self.new)) };

    /// Deletes a file. Fails with `NotFound` if no file has the name.
    fn delete(&mut self, path: &str) -> Result<(), ErrorKind>
        ensures ok { OnOk result (Deletes path.now (disk self.old) (disk self.new)) }
        ensures err { IfErr result (λ error. FailsToDelete path.now error (disk self.old) (disk self.new)) };

    /// Renames a file; another file that had the new name is gone. Fails with `NotFound` if no file has the old name,
    /// or the new one's directory doesn't exist. Fails with `IsADirectory` if the new name is a directory's.
    fn rename(&mut self, from: &str, to: &str) -> Result<(), ErrorKind>
        ensures ok { OnOk result (Renames from.now to.now (disk self.old) (disk self.new)) }
        ensures err { IfErr result (λ error.
            FailsToRename from.now to.now error (disk self.old) (disk self.new)) };

    /// Renames a file whose bytes are to be overwritten under the new name. Fails as `rename` does.
    fn reuse(&mut self, from: &str, to: &str) -> Result<(), ErrorKind>
        ensures ok { OnOk result (Renames from.now to.now (disk self.old) (disk self.new)) }
        ensures err { IfErr result (λ error.
            FailsToRename from.now to.now error (disk self.old) (disk self.new)) }
    {
        self.rename(from, to)
    }

    /// Renames a file whose bytes are to be overwritten under the new name, and opens it for reading and writing. Fails
    /// as `rename` does. If it fails with `OutOfMemory`, the file may have been renamed.
    fn reuse_and_open(&mut self, from: &str, to: &str) -> Result<Handle, ErrorKind>
        ensures ok { IfOk result (λ handle.
            RenamesAndOpens from.now to.now handle (disk self.old) (disk self.new)) }
        ensures err { IfErr result (λ error.
            FailsToRenameAndOpen from.now to.now error (disk self.old) (disk self.new)) }
    {
        self.reuse(from, to)?;
        self.open(to, Permission::ReadWrite)
    }

    /// Deletes what a file system may store about a file outside of it; the disk is unchanged. By default nothing is
    /// stored.
    fn delete_metadata(&mut self, _path: &str) -> Result<(), ErrorKind>
        ensures ok { OnOk result (LeavesAll (disk self.old) (disk self.new)) }
        ensures err { IfErr result (λ error. FailsWithoutChange error (disk self.old) (disk self.new)) }
    {
        if self.has_stopped() {
            return Err(ErrorKind::Other);
        }
        Ok(())
    }

    /// Makes a directory; its parent needn't exist. Fails with `AlreadyExists` if a file or a directory has the path.
    fn create_dir(&mut self, path: &str) -> Result<(), ErrorKind>
        ensures ok { OnOk result (MakesDirectory path.now (disk self.old) (disk self.new)) }
        ensures err { IfErr result (λ error.
            FailsToMakeDirectory path.now error (disk self.old) (disk self.new)) };

    /// Writes bytes into a file from an offset on, without a sync; a gap after the file's end is filled with zeros.
    /// Writing no bytes leaves the content unchanged. Fails with `NotFound` if the file is gone, or with
    /// `PermissionDenied` if the handle may only read.
    fn write_at(&mut self, handle: Handle, offset: usize, bytes: &[u8]) -> Result<(), ErrorKind>
        ensures ok { OnOk result (Writes handle offset bytes.now (disk self.old) (disk self.new)) }
        ensures permitted { OnOk result (handle.permission ≡ Permission.ReadWrite) }
        ensures err { IfErr result (λ error.
            FailsToWrite handle offset bytes.now error (disk self.old) (disk self.new)) };

    /// Truncates a file to a size, without a sync, and never makes it longer. Fails with `NotFound` if the file is
    /// gone, or with `PermissionDenied` if the handle may only read.
    fn truncate(&mut self, handle: Handle, size: usize) -> Result<(), ErrorKind>
        ensures ok { OnOk result (Shortens handle size (disk self.old) (disk self.new)) }
        ensures permitted { OnOk result (handle.permission ≡ Permission.ReadWrite) }
        ensures err { IfErr result (λ error.
            FailsToShorten handle size error (disk self.old) (disk self.new)) };

    /// Grows a file with zeros until it has `offset + size` bytes, without a sync, and never makes it shorter. Fails
    /// with `NotFound` if the file is gone, or with `PermissionDenied` if the handle may only read.
    fn allocate(&mut self, handle: Handle, offset: usize, size: usize) -> Result<(), ErrorKind>
        ensures ok { OnOk result (Grows handle (offset + size) (disk self.old) (disk self.new)) }
        ensures permitted { OnOk result (handle.permission ≡ Permission.ReadWrite) }
        ensures err { IfErr result (λ error.
            FailsToGrow handle (offset + size) error (disk self.old) (disk self.new)) };

    /// Makes a file's bytes durable: a crash leaves them unchanged, unless they are changed again. Fails with
    /// `NotFound` if the file is gone.
    fn sync(&mut self, handle: Handle) -> Result<(), ErrorKind>
        ensures ok { OnOk result (Syncs handle (disk self.old) (disk self.new)) }
        ensures err { IfErr result (λ error. FailsToSync handle error (disk self.old) (disk self.new)) };

    /// Opens a file. Fails with `NotFound` if no file has the name.
    fn open(&self, path: &str, permission: Permission) -> Result<Handle, ErrorKind>
        ensures ok { IfOk result (λ handle. IsOpened path.now permission handle (disk self.now)) }
        ensures err { IfErr result (λ error. IsNotOpened path.now (disk self.now) error) };

    /// Whether the file system stores something about a file outside of it.
    fn exists_metadata(&self, _path: &str) -> bool {
        false
    }

    /// The names of a directory's files, in any order. Fails with `NotFound` if nothing has the path, or with
    /// `InvalidInput` if a file has it.
    fn list(&self, directory: &str) -> Result<Vec<String>, ErrorKind>
        ensures ok { IfOk result (λ names.
            IsListing directory.now (disk self.now) (map string_bytes names.items)) }
        ensures err { IfErr result (λ error. IsNotListed directory.now (disk self.now) error) };

    /// By how many bytes a directory's files may still grow. Fails with `NotFound` if nothing has the path, or with
    /// `InvalidInput` if a file has it.
    fn free_space(&self, directory: &str) -> Result<u64, ErrorKind>
        ensures ok { OnOk result ((disk self.now).directories directory.now ≡ true) }
        ensures told { IfOk result (λ space. tells_space self.now directory.now space) }
        ensures err { IfErr result (λ error. IsNotListed directory.now (disk self.now) error) };

    /// Reads bytes from an offset on until `room` is full or the file ends, and returns how many. The receipt says
    /// whether they are what the disk holds. Fails with `Other` if a place that it asks for is unreadable, or with
    /// `NotFound` if the file is gone.
    fn read_at(&self, handle: Handle, offset: usize, room: &mut [u8]) -> Result<Read, ErrorKind>
        ensures within { IfOk result (λ read. read.count ≤ length room.old) }
        ensures ok { IfOk result (λ read. IsTrue read.receipt.honest
            ↔ FillsRoom handle.file offset (disk self.now) room.old room.new read.count) }
        ensures truth { IfOk result (λ read. tells_truth → IsTrue read.receipt.honest) }
        ensures readable { IfOk result (λ read. AreReadable handle.file offset read.count (disk self.now)) }
        ensures err { IfErr result (λ error.
            IsUnread handle offset (length room.old) (disk self.now) error) };

    /// The size of a file in bytes. Fails with `NotFound` if the file is gone.
    fn file_size(&self, handle: Handle) -> Result<usize, ErrorKind>
        ensures ok { IfOk result (λ size. IsSize handle.file (disk self.now) size) }
        ensures err { IfErr result (λ error. IsNotMeasured handle (disk self.now) error) };

    /// Whether the file system has stopped.
    fn has_stopped(&self) -> bool
        ensures { result ≡ (disk self.now).stopped };

    /// Arms a fault. It changes which later calls fail and how, and what `free_space` returns, and nothing else. Fails
    /// with `Other` after a stop, or with `OutOfMemory`; nothing is armed then.
    fn arm(&mut self, fault: &Fault) -> Result<(), ErrorKind>
        ensures ok { OnOk result (Arms fault.now (disk self.old) (disk self.new)) }
        ensures armed { OnOk result (arms fault.now self.old self.new) }
        ensures err { OnErr result (disk self.new ≡ disk self.old) }
        ensures cause { IfErr result (IsUnarmed (disk self.old)) };

    /// No file has two names. Each name has a file, and is in a directory that exists. A new file's number was never
    /// used, and each file's content is one that a crash may leave.
    ghost sound: { (system : Self) → IsSound (disk system) };

    /// Each file system is truthful. This law is dropped once every caller carries the receipts of what it reads.
    ghost truthful: { tells_truth };
}
