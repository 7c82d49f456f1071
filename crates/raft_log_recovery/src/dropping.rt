//! Reserved files are deleted.

ghost use Rattle.std.specs.Prelude.{◌≡◌, IfErr, OnOk, drop, reverse};
ghost use Rattle.raft_log_file_format.specs.Name.{IsNameRefusal};
ghost use Rattle.raft_log_recovery.specs.Dropping.{DropsEach, DropsOrNot, FailsToDropEach};

use log::{Log, warn};
use raft_log_active_file::{File, PipeFormat};
use raft_log_fs::FileSystem;
use raft_log_record_base::Result;
use std::alloc::Global;

/// Deletes a file; if the file system fails to, that is logged. Fails with `NumberRange` if the file's number has no
/// name, or with `Memory`; then nothing is done.
fn drop_or_not<G: PipeFormat, F: FileSystem, L: Log>(
    alloc: Global,
    layout: &G,
    rt: &L,
    file_system: &mut F,
    file: &File,
) -> Result<()>
    ensures ok { OnOk result (DropsOrNot (G.file_paths layout.now) file.now
        (F.disk file_system.old) (F.disk file_system.new)) }
    ensures err { IfErr result (λ error. IsNameRefusal file.now.seq error
        × (F.disk file_system.new ≡ F.disk file_system.old)) }
{
    let path = layout.file_path(alloc, file)?;
    match file_system.delete(path.as_str()) {
        Ok(()) => Ok(()),
        Err(kind) => {
            warn!(rt; "{path} wasn't deleted: {kind}");
            Ok(())
        }
    }
}

/// Deletes these files except for the `left` oldest ones, from the newest on; continues after a deletion that fails.
/// Fails with `NumberRange` if one has no name, or with `Memory`; then deletions of newer ones were tried.
pub(crate) fn drop_newest<G: PipeFormat, F: FileSystem, L: Log>(
    alloc: Global,
    layout: &G,
    rt: &L,
    file_system: &mut F,
    files: &[File],
    left: usize,
) -> Result<()>
    ensures ok { OnOk result (DropsEach (G.file_paths layout.now) (reverse (drop left files.now))
        (F.disk file_system.old) (F.disk file_system.new)) }
    ensures err { IfErr result (λ error. FailsToDropEach (G.file_paths layout.now)
        (reverse (drop left files.now)) error (F.disk file_system.old) (F.disk file_system.new)) }
{
    let mut at = files.len();
    while at > left {
        at -= 1;
        drop_or_not(alloc, layout, rt, file_system, &files[at])?;
    }
    Ok(())
}
