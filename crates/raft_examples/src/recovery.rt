//! A caller of `raft_log_recovery_scan`: counts the files of a log that nobody has open.

ghost use Rattle.std.specs.Prelude.{IfErr, IfOk, map};
ghost use Rattle.std.specs.String.{string_bytes};
ghost use Rattle.raft_log_recovery_scan.specs.Scanned.{FailsToScan};
ghost use Rattle.raft_examples.specs.Recovery.{FindsFiles};

use log::Log;
use raft_log_file_settings::RecoveryMode;
use raft_log_fs::FileSystem;
use raft_log_record_base::Result;
use raft_log_recovery_scan::scanning::scan;
use std::alloc::Global;

/// How many files of Append and of Rewrite a scan of these directories keeps: those after the last gap in the numbers.
/// Logs the others. Makes missing directories; changes no file.
pub fn count_files<F: FileSystem, L: Log>(
    alloc: Global,
    rt: &L,
    file_system: &mut F,
    paths: &[String],
    mode: RecoveryMode,
) -> Result<(usize, usize)>
    ensures ok { IfOk result (λ counts. FindsFiles (map string_bytes paths.now) mode counts.0 counts.1
        (F.disk file_system.old) (F.disk file_system.new)) }
    ensures err { IfErr result (λ error. FailsToScan (map string_bytes paths.now) error
        (F.disk file_system.old) (F.disk file_system.new)) }
{
    let scanned = scan(alloc, rt, file_system, paths, mode)?;
    Ok((scanned.append.len(), scanned.rewrite.len()))
}
