//! The highest number of files.

ghost use Rattle.std.specs.Prelude.{◌≤◌, All};

use raft_log_record_base::FileSeq;
use raft_log_recovery_scan::scanning::found::FoundFile;

/// The highest number of these files; 0 if there are none.
pub(crate) fn newest_of(files: &[FoundFile]) -> FileSeq
    ensures { All (λ file. file.seq ≤ result) files.now }
{
    let mut newest = 0;
    for file in files {
        newest = higher(newest, file.seq);
    }
    newest
}

/// The higher one of two numbers.
fn higher(one: FileSeq, other: FileSeq) -> FileSeq
    ensures one { one ≤ result }
    ensures other { other ≤ result }
{
    if one < other { other } else { one }
}
