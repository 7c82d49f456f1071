//! A caller of `raft_log_offline`: whether a log has no hole.

ghost use Rattle.std.specs.Prelude.{IfErr, IfOk};
ghost use Rattle.raft_log_offline.specs.Directory.{FailsToCheckDirectory};
ghost use Rattle.raft_examples.specs.Consistency.{FindsNoHole};

use log::Log;
use raft_log_fs::FileSystem;
use raft_log_offline::consistency_check_with_file_system;
use raft_log_record_base::Result;
use std::alloc::Global;
use std::thread::Threads;

/// Whether no group has a hole in the log in a directory, which nobody has open.
pub fn is_whole<R: Threads + Log + Sync, F: FileSystem + Sync>(
    rt: &R,
    alloc: Global,
    path: &str,
    file_system: &mut F,
) -> Result<bool>
    ensures ok { IfOk result (λ whole. FindsNoHole path.now whole
        (F.disk file_system.old) (F.disk file_system.new)) }
    ensures err { IfErr result (λ error. FailsToCheckDirectory path.now error
        (F.disk file_system.old) (F.disk file_system.new)) }
{
    let findings = consistency_check_with_file_system(rt, alloc, path, file_system)?;
    Ok(findings.is_empty())
}
