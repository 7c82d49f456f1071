//! Lists the items of a log's files, also if these are damaged.
ghost use Rattle.std.specs.Prelude.{codes, IfOk, IfErr};
ghost use Rattle.raft_log_file_reader.specs.Telling.{TellsAbsent};
ghost use Rattle.raft_log_offline.specs.Dump.{Dumps, IsNoDump};

use raft_log_file_reader::LogItemReader;
use raft_log_fs::FileSystem;
use raft_log_record_base::{Error, Result};
use std::alloc::Global;
use std::io::ErrorKind;

/// Returns a reader of the items of all log files of a directory, or of the one log file with this path. Rewrite's
/// files come first, each queue's by their numbers, and each file's items in order. If something in a file can't be
/// read, its error takes the place of the file's remaining items. Changes nothing.
///
/// Fails:
/// - with `InvalidArgument` if neither a directory nor a file has the path, or if the file's name isn't a log file's
/// - with `Io` if the file system has stopped
/// - with `Memory`
pub fn dump_with_file_system<'a, F: FileSystem>(
    alloc: Global,
    path: &str,
    file_system: &'a F,
) -> Result<LogItemReader<'a, F>>
    ensures ok { IfOk result (Dumps F.disk file_system.now path.now) }
    ensures err { IfErr result (IsNoDump path.now (F.disk file_system.now)) }
{
    match file_system.list(path) {
        Ok(_names) => LogItemReader::new_directory_reader(alloc, file_system, path),
        Err(kind) if kind == ErrorKind::InvalidInput => {
            LogItemReader::new_file_reader(alloc, file_system, path)
        }
        Err(kind) => Err(absent(alloc, file_system.has_stopped(), kind, path)),
    }
}

/// The error for a path that is neither a directory's nor a file's.
fn absent(alloc: Global, stopped: bool, kind: ErrorKind, path: &str) -> Error
    ensures { TellsAbsent stopped kind (codes "No such file or directory") path.now result }
{
    if stopped {
        return Error::Io(kind);
    }
    if kind == ErrorKind::OutOfMemory {
        return Error::Memory;
    }
    match format!(in alloc; "No such file or directory: {path}") {
        Ok(text) => Error::InvalidArgument(text),
        Err(_) => Error::Memory,
    }
}
