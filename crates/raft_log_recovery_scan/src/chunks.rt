//! How the files are shared among workers: how many workers each queue gets.

ghost use Rattle.std.specs.Prelude.{◌≡◌, ◌<◌, ◌≤◌, ◌+◌, ◌*◌, ◌/◌, min, max};
ghost use Rattle.raft_log_recovery_scan.specs.Chunks.{append_share, rewrite_share};

/// How many workers read the files of each queue.
#[derive(Clone, Copy, Debug, PartialEq, Eq)]
pub struct Workers {
    /// How many read Append's files.
    pub append: usize,
    /// How many read Rewrite's files.
    pub rewrite: usize,
}

/// How many workers each queue gets of so many threads, by how many files it has. There are as many workers as threads,
/// but no more than files.
///
/// If both queues have files, each gets its share by their number, but at least one worker, even with fewer than two
/// threads. If only one has files, both numbers are that of all workers.
pub fn share_workers(threads: usize, append_files: usize, rewrite_files: usize) -> Workers
    ensures append { result.append
        ≡ append_share (min threads (append_files + rewrite_files)) append_files rewrite_files }
    ensures rewrite { result.rewrite
        ≡ rewrite_share (min threads (append_files + rewrite_files)) append_files rewrite_files }
{
    let files = append_files as u128 + rewrite_files as u128;
    let all = files.min(threads as u128) as usize;
    if append_files == 0 || rewrite_files == 0 {
        return Workers {
            append: all,
            rewrite: all,
        };
    }
    let append = share(all, append_files, files);
    Workers {
        append,
        rewrite: all.saturating_sub(append).max(1),
    }
}

/// A share of all workers by this part of the files, at least one.
fn share(all: usize, part: usize, files: u128) -> usize
    requires some { 0 < files }
    requires within { part ≤ files }
    ensures { result ≡ max 1 (all * part / files) }
{
    let share = all as u128 * part as u128 / files;
    (share as usize).max(1)
}
