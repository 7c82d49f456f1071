//! A caller of the file system in memory.

ghost use Rattle.std.specs.Prelude.{◌≡◌, [], ◌∷◌, ◌++◌, OnOk, IfOk};
ghost use Rattle.raft_log_fs.specs.Disk.{Wrote};
ghost use Rattle.raft_log_fs.specs.Image.{IsImage};
ghost use Rattle.raft_log_fs_memory.specs.Memory.{disk_of, unsynced};

use raft_log_fs::{FileSystem, Handle};
use raft_log_fs_memory::{MemoryFileSystem, Remainder};
use std::alloc::AllocError;
use std::io::ErrorKind;

/// Writes the same bytes at the beginning of two files. The first write comes before the second in the list of what a
/// crash may lose.
pub fn write_both(
    system: &mut MemoryFileSystem,
    first: Handle,
    second: Handle,
    bytes: &[u8],
) -> Result<(), ErrorKind>
    ensures { OnOk result (unsynced system.new ≡ unsynced system.old
        ++ (first.file, Wrote 0 bytes.now) ∷ (second.file, Wrote 0 bytes.now) ∷ []) }
{
    system.write_at(first, 0, bytes)?;
    system.write_at(second, 0, bytes)?;
    Ok(())
}

/// What a crash leaves that keeps only the first change.
pub fn first_change_left(system: &MemoryFileSystem) -> Result<MemoryFileSystem, AllocError>
    ensures image { IfOk result (λ after. IsImage (disk_of system.now) (disk_of after)) }
    ensures synced { IfOk result (λ after. unsynced after ≡ []) }
{
    let what = Remainder::First {
        pieces: 1,
        bytes: 0,
    };
    system.remainder(&what)
}
