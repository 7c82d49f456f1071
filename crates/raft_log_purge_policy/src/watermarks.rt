//! Which queues a purge collects, and up to which files.

ghost use Rattle.std.specs.Prelude.{◌≡◌, ◌↔◌, ◌<◌, IsTrue};
ghost use Rattle.raft_log_machine_laws.specs.Calls.Which.{InAppend};
ghost use Rattle.raft_log_dual_pipes.specs.Pipes.{which_of};
ghost use Rattle.raft_log_purge_policy.specs.Watermarks.{
  IsAnyPast,
  IsGarbage,
  IsQueuePast,
  TakesAppend,
  TakesRewrite,
  watermarks_of,
};

use crate::thresholds::Thresholds;
use raft_log_dual_pipes::PipeLog;
use raft_log_memtable::GlobalStats;
use raft_log_record_base::{FileSeq, LogQueue};

/// A group is old if it has something in an Append file below this share of the live range.
const COMPACT_THOUSANDTHS: u32 = 200;

/// What is in an Append file up to this share of the live range is rewritten.
const REWRITE_THOUSANDTHS: u32 = 700;

/// The files of Append that a purge compares a group's entries and values with.
#[derive(Clone, Copy, Debug, PartialEq, Eq)]
pub struct Watermarks {
    /// What is in files up to this one is rewritten.
    pub rewrite: FileSeq,
    /// What is in files below this one is old.
    pub compact: FileSeq,
}

/// Returns the watermarks of a purge of Append: the files after 70 and after 20 percent of its live range, but at most
/// the last one before the active file.
pub fn append_watermarks<P: PipeLog>(pipes: &P) -> Watermarks
    ensures { result ≡ watermarks_of (P.shown pipes.now) }
{
    let (_first, last) = pipes.file_span(LogQueue::Append);
    let before_last = last.saturating_sub(1);
    let rewrite = pipes.file_at(LogQueue::Append, REWRITE_THOUSANDTHS, 1000);
    let compact = pipes.file_at(LogQueue::Append, COMPACT_THOUSANDTHS, 1000);
    Watermarks {
        rewrite: rewrite.min(before_last),
        compact: compact.min(before_last),
    }
}

/// Whether a purge collects Append: it has more than one file, and is larger than its threshold (`Thresholds`).
pub fn takes_append<P: PipeLog>(thresholds: &Thresholds, pipes: &P) -> bool
    ensures { IsTrue result ↔ TakesAppend thresholds.now (P.shown pipes.now) }
{
    is_past(pipes, LogQueue::Append, thresholds.append)
}

/// Whether a purge rewrites Rewrite: it has more than one file, is larger than its threshold, and has more garbage than
/// the ratio allows. Without a threshold, never.
pub fn takes_rewrite<P: PipeLog>(thresholds: &Thresholds, stats: &GlobalStats, pipes: &P) -> bool
    ensures { IsTrue result ↔ TakesRewrite thresholds.now stats.now (P.shown pipes.now) }
{
    let Some(threshold) = thresholds.rewrite else {
        return false;
    };
    is_past(pipes, LogQueue::Rewrite, threshold) && is_garbage(thresholds.garbage_ratio, stats)
}

/// Whether a purge may have something to do: a queue has more than one file, and is larger than its threshold.
pub fn is_any_past<P: PipeLog>(thresholds: &Thresholds, pipes: &P) -> bool
    ensures { IsTrue result ↔ IsAnyPast thresholds.now (P.shown pipes.now) }
{
    let rewrite = match thresholds.rewrite {
        Some(threshold) => is_past(pipes, LogQueue::Rewrite, threshold),
        None => false,
    };
    rewrite || takes_append(thresholds, pipes)
}

/// Whether a queue has more than one file, and is larger than this.
fn is_past<P: PipeLog>(pipes: &P, queue: LogQueue, threshold: u64) -> bool
    ensures { IsTrue result ↔ IsQueuePast (which_of queue) threshold (P.shown pipes.now) }
{
    let (first, last) = pipes.file_span(queue);
    first < last && threshold < pipes.total_size(queue) as u64
}

/// Whether more than so many thousandths of what was written to Rewrite are garbage.
fn is_garbage(ratio: u64, stats: &GlobalStats) -> bool
    ensures { IsTrue result ↔ IsGarbage ratio stats.now }
{
    let written = stats.rewrite_entries() as u128;
    let deleted = stats.deleted_rewrite_entries() as u128;
    written * (ratio as u128) < deleted * 1000
}
