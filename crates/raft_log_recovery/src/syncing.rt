//! Files are synced.

ghost use Rattle.std.specs.Prelude.{IfErr, OnOk};
ghost use Rattle.raft_log_recovery.specs.Syncing.{FailsToSyncEach, SyncsEach};

use raft_log_active_file::File;
use raft_log_fs::FileSystem;
use std::io::ErrorKind;

/// Syncs each of these files, in order. If it fails, those before the failed one are synced.
pub fn sync_files<F: FileSystem>(file_system: &mut F, files: &[File]) -> Result<(), ErrorKind>
    ensures ok { OnOk result
        (SyncsEach files.now (F.disk file_system.old) (F.disk file_system.new)) }
    ensures err { IfErr result (λ kind.
        FailsToSyncEach files.now kind (F.disk file_system.old) (F.disk file_system.new)) }
{
    for file in files {
        file_system.sync(file.handle)?;
    }
    Ok(())
}
