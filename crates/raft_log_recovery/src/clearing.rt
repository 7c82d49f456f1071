//! Deletes the metadata that a file system keeps for files that a log no longer has.

ghost use Rattle.std.specs.Prelude.{◌≡◌, ◌<◌, ◌^◌, All, IfErr};
ghost use Rattle.raft_log_record_base.specs.declared.errors.Error.TheVariants.{Memory};
ghost use Rattle.raft_log_recovery_scan.specs.Metadata.{ChangesNoFile};

use log::Log;
use raft_log_active_file::File;
use raft_log_fs::FileSystem;
use raft_log_record_base::Result;
use raft_log_recovery_scan::FileKind;
use raft_log_recovery_scan::scanning::ScannedFiles;
use raft_log_recovery_scan::scanning::metadata::clear_metadata;
use std::alloc::Global;

/// Deletes the metadata that the file system keeps for files below the first ones of both queues; a failure is logged.
/// Fails only with `Memory`; then some may be left.
pub(crate) fn clear_old<F: FileSystem, L: Log>(
    alloc: Global,
    rt: &L,
    file_system: &mut F,
    paths: &[String],
    found: &ScannedFiles,
) -> Result<()>
    requires append { All (λ file. file.seq < 10 ^ 16) found.now.append.items }
    requires rewrite { All (λ file. file.seq < 10 ^ 16) found.now.rewrite.items }
    ensures files { ChangesNoFile (F.disk file_system.old) (F.disk file_system.new) }
    ensures err { IfErr result (λ error. error ≡ Memory) }
{
    clear_below(
        alloc,
        rt,
        file_system,
        FileKind::Append,
        paths,
        &found.append,
    )?;
    clear_below(
        alloc,
        rt,
        file_system,
        FileKind::Rewrite,
        paths,
        &found.rewrite,
    )
}

/// Deletes the metadata that the file system keeps for files of a kind below the first one of these.
fn clear_below<F: FileSystem, L: Log>(
    alloc: Global,
    rt: &L,
    file_system: &mut F,
    kind: FileKind,
    paths: &[String],
    files: &[File],
) -> Result<()>
    requires { All (λ file. file.seq < 10 ^ 16) files.now }
    ensures files { ChangesNoFile (F.disk file_system.old) (F.disk file_system.new) }
    ensures err { IfErr result (λ error. error ≡ Memory) }
{
    match files.first() {
        Some(file) => clear_metadata(alloc, rt, file_system, kind, paths, file.seq),
        None => Ok(()),
    }
}
