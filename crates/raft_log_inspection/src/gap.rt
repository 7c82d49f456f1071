//! Gaps in the numbers of a queue's files.

ghost use Rattle.std.specs.Prelude.{◌≡◌, ◌↔◌, [], IsTrue, IfOk};
ghost use Rattle.raft_log_recovery_scan.specs.Runs.{FollowsNumber, IsConsecutive};

use raft_log_record_base::FileSeq;
use raft_log_recovery_scan::scanning::found::FoundFile;
use std::alloc::{AllocError, Global};

/// Two files that are neighbors in the order of their numbers, and whose numbers aren't consecutive. An open keeps only
/// the files from the second one of the last gap on.
#[derive(Clone, Copy, Debug, PartialEq, Eq)]
pub struct Gap {
    /// The number of the first file.
    pub before: FileSeq,
    /// The number of the second file: the same one, or a higher one after missing numbers.
    pub behind: FileSeq,
}

/// The gaps between files that are in the order of their numbers. Fails only for lack of memory.
pub(crate) fn gaps_of(alloc: Global, files: &[FoundFile]) -> Result<Vec<Gap>, AllocError>
    ensures { IfOk result (λ gaps. gaps.items ≡ [] → IsConsecutive files.now) }
{
    let mut gaps = Vec::new(alloc);
    for at in 1..files.len() {
        let before = &files[at - 1];
        let behind = &files[at];
        if !follows(before, behind) {
            gaps.push(Gap {
                before: before.seq,
                behind: behind.seq,
            })?;
        }
    }
    Ok(gaps)
}

/// Whether a file has the number after another one's.
fn follows(before: &FoundFile, file: &FoundFile) -> bool
    ensures { IsTrue result ↔ FollowsNumber before.now file.now }
{
    before.seq < file.seq && file.seq - before.seq == 1
}
