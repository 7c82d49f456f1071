//! Damaged files are truncated.

ghost use Rattle.std.specs.Prelude.{◌≡◌, ◌≤◌, length, IfErr, OnOk};
ghost use Rattle.raft_log_recovery.specs.Cutting.{CutsEach, CutsOne, FailsToCutEach, FailsToCutOne};

use crate::cut_log::log_cut;
use log::Log;
use raft_log_active_file::File;
use raft_log_file_settings::Config;
use raft_log_fs::FileSystem;
use raft_log_record_base::LogQueue;
use raft_log_recovery_read::FileEnding;
use std::alloc::Global;
use std::io::ErrorKind;

/// Truncates each damaged file of a queue after its last good record, or to nothing if it has no header, and syncs it,
/// in order. `endings` has the results of reading the first of these files; the others are left. Logs what is
/// truncated. If it fails, the damaged ones before the failed one are truncated and synced.
pub fn cut_files<F: FileSystem, L: Log>(
    rt: &L,
    alloc: Global,
    file_system: &mut F,
    settings: &Config,
    queue: LogQueue,
    files: &[File],
    endings: &[FileEnding],
) -> Result<(), ErrorKind>
    requires { length endings.now ≤ length files.now }
    ensures ok { OnOk result (CutsEach files.now endings.now
        (F.disk file_system.old) (F.disk file_system.new)) }
    ensures err { IfErr result (λ kind. FailsToCutEach files.now endings.now kind
        (F.disk file_system.old) (F.disk file_system.new)) }
{
    for index in 0..endings.len() {
        cut_file(
            rt,
            alloc,
            file_system,
            settings,
            queue,
            files[index],
            endings[index],
        )?;
    }
    Ok(())
}

/// Truncates a damaged file, and syncs it.
fn cut_file<F: FileSystem, L: Log>(
    rt: &L,
    alloc: Global,
    file_system: &mut F,
    settings: &Config,
    queue: LogQueue,
    file: File,
    ending: FileEnding,
) -> Result<(), ErrorKind>
    ensures ok { OnOk result
        (CutsOne file ending (F.disk file_system.old) (F.disk file_system.new)) }
    ensures err { IfErr result (λ kind.
        FailsToCutOne file ending kind (F.disk file_system.old) (F.disk file_system.new)) }
{
    if !ending.is_damaged {
        return Ok(());
    }
    let end = ending.end.unwrap_or(0);
    log_cut(rt, alloc, file_system, settings, queue, file, ending);
    file_system.truncate(file.handle, end)?;
    file_system.sync(file.handle)
}
