//! Which of the files that were found are kept: the longest run without a gap that ends with the last one.

ghost use Rattle.std.specs.Prelude.{◌≡◌, ◌↔◌, ◌≤◌, IsTrue, IfOk, IfErr, length};
ghost use Rattle.raft_log_record_base.specs.declared.errors.Error.TheVariants.{Memory};
ghost use Rattle.raft_log_recovery_scan.specs.Runs.{FollowsNumber, BeginsRun, IsRunOf};

use super::found::FoundFile;
use crate::file_kind::FileKind;
use log::{Log, warn};
use raft_log_record_base::Result;

/// Sorts the files by number, and keeps those after the last gap: a missing number, or two files with one number. The
/// others are dropped from the list, and stay in their directories. One warning has the first and the last number of a
/// queue's.
///
/// If two have one number, the one in the main directory comes first; in one directory, the one without a sign. Fails
/// only with `Memory`.
pub fn keep_run<L: Log>(rt: &L, kind: FileKind, mut files: Vec<FoundFile>) -> Result<Vec<FoundFile>>
    ensures ok { IfOk result (λ kept. IsRunOf files.items kept.items) }
    ensures err { IfErr result (λ error. error ≡ Memory) }
{
    files.sort_by_key(|file| (file.seq, file.path_id, file.signed))?;
    let first = first_of_run(files.as_slice());
    let kept = files.split_off(first)?;
    log_dropped(rt, kind, files.as_slice());
    Ok(kept)
}

/// Logs the files of a queue that are below a gap in its numbers, if there are some.
fn log_dropped<L: Log>(rt: &L, kind: FileKind, dropped: &[FoundFile]) {
    let (Some(first), Some(last)) = (dropped.first(), dropped.last()) else {
        return;
    };
    let (first, last) = (first.seq, last.seq);
    match kind {
        FileKind::Append => {
            warn!(rt; "append files {first} to {last} lie below a gap and are passed over")
        }
        FileKind::Rewrite => {
            warn!(rt; "rewrite files {first} to {last} lie below a gap and are passed over")
        }
        FileKind::Reserved => {}
    }
}

/// The index at which the last run begins.
fn first_of_run(files: &[FoundFile]) -> usize
    ensures within { result ≤ length files.now }
    ensures run { BeginsRun files.now (length files.now) result }
{
    let mut first = 0;
    for at in 1..files.len() {
        if !follows(&files[at - 1], &files[at]) {
            first = at;
        }
    }
    first
}

/// Whether a file has the number after another one's.
fn follows(before: &FoundFile, file: &FoundFile) -> bool
    ensures { IsTrue result ↔ FollowsNumber before.now file.now }
{
    before.seq < file.seq && file.seq - before.seq == 1
}
