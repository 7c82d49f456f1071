//! A caller of `raft_log_offline`: reads the beginning of a log's files.

ghost use Rattle.std.specs.Prelude.{IfErr, IfOk};
ghost use Rattle.raft_log_offline.specs.Dump.{IsNoDump};
ghost use Rattle.raft_examples.specs.Dump.{BeginsDump};

use raft_log_fs::FileSystem;
use raft_log_offline::dump_with_file_system;
use raft_log_record_base::Result;
use raft_log_record_items::LogItem;
use std::alloc::Global;

/// The first item or error that is read from the log files of a directory, or from the log file with this path; none if
/// they are empty.
pub fn first_dumped<F: FileSystem>(
    alloc: Global,
    path: &str,
    file_system: &F,
) -> Result<Option<Result<LogItem>>>
    ensures ok { IfOk result (BeginsDump F.disk file_system.now path.now) }
    ensures err { IfErr result (IsNoDump path.now (F.disk file_system.now)) }
{
    let mut items = dump_with_file_system(alloc, path, file_system)?;
    Ok(items.next())
}
