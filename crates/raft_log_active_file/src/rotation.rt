//! Rotations: the last file of a queue is finished, and the queue continues in the next one. Also deletes earlier
//! files.

ghost use Rattle.std.specs.Prelude.{◌≡◌, ℕ, Some, None, IfOk, IfErr, OnOk, OnErr};
ghost use Rattle.std.specs.String.{string_bytes};
ghost use Rattle.raft_log_fs.specs.Calls.{Creates, Deletes, Renames};
ghost use Rattle.raft_log_fs.specs.Causes.{IsLater};
ghost use Rattle.raft_log_fs.specs.Exits.{FailsToCreate, FailsToDelete, FailsToRename};
ghost use Rattle.raft_log_active_file.specs.Rotation.{Drops, FilesStay, RotatesBy, RotationMakes, FailsToDrop, FailsToRotateOver, FailsToRotateToNew, RotatesOver, RotatesToNew};

use super::format::PipeFormat;
use super::last_file::{begin_file, finish_file};
use log::Log;
use raft_log_file_writer::LogFileWriter;
use raft_log_fs::{FileSystem, Handle};
use std::io::ErrorKind;

/// Rotates into a file that is created for the next number. Returns its handle.
///
/// If it fails, the queue is as before, or its last file is the next one, without a record. The last file has its
/// durable records.
pub fn rotate_to_new<G: PipeFormat, F: FileSystem, L: Log>(
    layout: &G,
    rt: &L,
    file_system: &mut F,
    writer: &mut LogFileWriter,
    path: &str,
    header: &[u8],
) -> Result<Handle, ErrorKind>
    ensures ok { IfOk result (λ handle. RotatesToNew (G.format layout.now) (G.own layout.now)
        header.now path.now writer.old writer.new handle (F.disk file_system.old) (F.disk file_system.new)) }
    ensures err { OnErr result (FailsToRotateToNew (G.format layout.now) (G.own layout.now)
        header.now path.now writer.old (F.disk file_system.old) (F.disk file_system.new)) }

    // Which calls were made, and whose error is returned; and no other file changes.
    ensures calls { IfOk result (λ handle. RotatesBy writer.old header.now
        (λ handle. Creates path.now handle.file) handle writer.new
        (F.disk file_system.old) (F.disk file_system.new)) }
    ensures refusal { IfErr result (λ error. RotationMakes writer.old header.now (FailsToCreate path.now)
        (λ handle. Creates path.now handle.file) error (F.disk file_system.old) (F.disk file_system.new)) }
    ensures files { IfOk result (λ handle. FilesStay writer.old.handle.file handle.file
        (F.disk file_system.old) (F.disk file_system.new)) }
    ensures later { IsLater (F.disk file_system.old) (F.disk file_system.new) }
{
    finish_file(layout, file_system, writer)?;
    let handle = file_system.create(path)?;
    *writer = begin_file(layout, rt, file_system, handle, header)?;
    Ok(handle)
}

/// Rotates into a file that was kept for recycling, which gets the next number. The handle is the file's, opened for
/// writing before the call, so that nothing allocates memory between the calls that change something. Fails as
/// `rotate_to_new` does, with a rename in place of the creation.
pub fn rotate_over<G: PipeFormat, F: FileSystem, L: Log>(
    layout: &G,
    rt: &L,
    file_system: &mut F,
    writer: &mut LogFileWriter,
    handle: Handle,
    from: &str,
    to: &str,
    header: &[u8],
) -> Result<(), ErrorKind>
    ensures ok { OnOk result
        (RotatesOver (G.format layout.now) (G.own layout.now) header.now handle from.now to.now writer.old
        writer.new
        (F.disk file_system.old) (F.disk file_system.new)) }
    ensures err { OnErr result
        (FailsToRotateOver (G.format layout.now) (G.own layout.now) header.now handle from.now to.now
        writer.old
        (F.disk file_system.old) (F.disk file_system.new)) }

    // Which calls were made, and whose error is returned; and no other file changes.
    ensures calls { OnOk result (RotatesBy writer.old header.now (λ named. Renames from.now to.now) handle
        writer.new (F.disk file_system.old) (F.disk file_system.new)) }
    ensures refusal { IfErr result (λ error. RotationMakes writer.old header.now
        (FailsToRename from.now to.now) (λ named. Renames from.now to.now) error
        (F.disk file_system.old) (F.disk file_system.new)) }
    ensures files { OnOk result ((F.disk file_system.old).names to.now ≡ None → FilesStay
        writer.old.handle.file handle.file (F.disk file_system.old) (F.disk file_system.new)) }
    ensures later { IsLater (F.disk file_system.old) (F.disk file_system.new) }
{
    finish_file(layout, file_system, writer)?;
    file_system.reuse(from, to)?;
    *writer = begin_file(layout, rt, file_system, handle, header)?;
    Ok(())
}

/// Deletes a file that the queue doesn't need any more: an earlier one, or one that was kept for recycling. If it
/// fails, the last file still has its durable records.
pub fn drop_file<G: PipeFormat, F: FileSystem>(
    layout: &G,
    file_system: &mut F,
    path: &str,
) -> Result<(), ErrorKind>
    ensures ok { OnOk result
        (Drops (G.format layout.now) (G.own layout.now) path.now
        (F.disk file_system.old) (F.disk file_system.new)) }
    ensures err { OnErr result
        (FailsToDrop (G.format layout.now) (G.own layout.now) path.now
        (F.disk file_system.old) (F.disk file_system.new)) }
    ensures calls { OnOk result (Deletes path.now
        (F.disk file_system.old) (F.disk file_system.new)) }
    ensures refusal { IfErr result (λ error. FailsToDelete path.now error
        (F.disk file_system.old) (F.disk file_system.new)) }
    ensures files { OnOk result ((id : ℕ) → (F.disk file_system.old).names path.now ≡ Some id
        → FilesStay id id (F.disk file_system.old) (F.disk file_system.new)) }
    ensures later { IsLater (F.disk file_system.old) (F.disk file_system.new) }
{
    file_system.delete(path)
}
