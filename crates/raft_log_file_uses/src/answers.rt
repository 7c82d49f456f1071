//! Reading all items of a directory's log files: the caller that `CALLING.md` of `raft_log_file_reader`
//! shows.
ghost use Rattle.std.specs.Prelude.{IfOk};
ghost use Rattle.raft_log_file_uses.specs.Answers.{GivesDirectory};

use raft_log_file_reader::LogItemReader;
use raft_log_fs::FileSystem;
use raft_log_record_base::Result;
use raft_log_record_items::LogItem;
use std::alloc::Global;

/// Returns the items of a directory's log files in order. If a file can't be read to its end, its error is in place of
/// the rest of its items. Fails with `Io` if the file system has stopped, with `InvalidArgument` if the path isn't a
/// directory's, or with `Memory`.
pub fn answers_of<F: FileSystem>(
    alloc: Global,
    file_system: &F,
    directory: &str,
) -> Result<Vec<Result<LogItem>>>
    ensures { IfOk result (λ answers.
        GivesDirectory directory.now (F.disk file_system.now) answers.items) }
{
    let reader = LogItemReader::new_directory_reader(alloc, file_system, directory)?;
    let mut answers = Vec::new(alloc);
    for answer in reader {
        answers.push(answer)?;
    }
    Ok(answers)
}
