//! A caller of the trait `FileSystem`.

ghost use Rattle.std.specs.Prelude.{◌≡◌, Some, IfOk, IfErr};
ghost use Rattle.raft_log_fs.specs.Disk.{Disk, at_rest};
ghost use Rattle.raft_log_fs.specs.Image.{IsImage};
ghost use Rattle.raft_log_fs.specs.Causes.{IsLater};
ghost use Rattle.raft_examples.specs.LogDisk.{FailsToSave};

use raft_log_fs::{FileSystem, Handle};
use std::io::ErrorKind;

/// Creates a file with these bytes, and syncs it. If it succeeds, no crash loses them.
pub fn save<F: FileSystem>(
    file_system: &mut F,
    path: &str,
    bytes: &[u8],
) -> Result<Handle, ErrorKind>
    ensures ok { IfOk result (λ handle.
        (F.disk file_system.new).files handle.file ≡ Some (at_rest bytes.now)) }
    ensures crash { IfOk result (λ handle. (image : Disk) → IsImage (F.disk file_system.new) image
        → image.files handle.file ≡ Some (at_rest bytes.now)) }
    ensures err { IfErr result (λ error.
        FailsToSave path.now error (F.disk file_system.old) (F.disk file_system.new)) }
    ensures later { IsLater (F.disk file_system.old) (F.disk file_system.new) }
{
    let handle = file_system.create(path)?;
    file_system.write_at(handle, 0, bytes)?;
    file_system.sync(handle)?;
    Ok(handle)
}
