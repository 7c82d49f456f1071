//! Both queues are purged if their files are past their thresholds.

ghost use Rattle.std.specs.Prelude.{◌≡◌, ◌≤◌, ℕ, IfErr, IfOk, OnErr, OnOk};
ghost use Rattle.raft_log_record_base.specs.declared.pipe_log.LogQueue.TheVariants.{Append};
ghost use Rattle.raft_log_dual_pipes.specs.HoldingBack.{PipesHoldBack};
ghost use Rattle.raft_log_purge_copy.specs.raft_log_engine_laws.specs.EngineState.{shows};
ghost use Rattle.raft_log_memtables.specs.Tables.{IsAtRest};
ghost use Rattle.raft_log_purge_copy.specs.Owed.{AddsNoMarks};
ghost use Rattle.raft_log_purge_policy.specs.Picking.{count_of};
ghost use Rattle.raft_log_purge_policy.specs.Surveying.{SurveysIfTold};
ghost use Rattle.raft_log_purge.specs.Expired.{FailsToPurgeAppend};
ghost use Rattle.raft_log_purge.specs.Garbage.{CountsRefused};
ghost use Rattle.raft_log_purge.specs.RewriteQueue.{FailsToRewriteRewrite, reset_counts};
ghost use Rattle.raft_log_purge.specs.Standing.{StandIfTold};
ghost use Rattle.raft_log_purge.specs.ExpiredFiles.{
  FailsToPurgeExpired,
  FreesFirst,
  KeepsCounts,
  PurgesExpired,
  RewritesIfPast,
  StopsAtRewrite,
  SyncsAndRewrites,
};

use crate::expired::{Purged, delete_before_writing, purge_append, survey_if_past};
use crate::rewrite_queue::rewrite_rewrite_queue;
use log::Log;
use raft_log_dual_pipes::PipeLog;
use raft_log_memtable::GlobalStats;
use raft_log_memtables::MemTables;
use raft_log_purge_copy::raft_log_block_cache::BlockCache;
use raft_log_purge_policy::{Rounds, Survey, Thresholds, takes_append, takes_rewrite};
use raft_log_record_base::{LogQueue, Result};
use std::alloc::Global;

/// What is counted from one purge of a log to the next.
#[derive(Drop)]
pub struct PurgeCounts {
    /// In how many purges in a row each group was asked to be compacted.
    pub rounds: Rounds,
    /// What was written to Rewrite, and how much of that is garbage.
    pub stats: GlobalStats,
    /// The number of the next atomic group in Rewrite.
    pub number: u64,
}

impl PurgeCounts {
    ghost use Rattle.raft_log_purge_policy.specs.Picking.{count_of};
    ghost use Rattle.raft_log_record_base.specs.declared.pipe_log.LogQueue.TheVariants.{Rewrite};
    ghost use Rattle.raft_log_memtable.specs.Stats.{added, no_entries};
    ghost use Rattle.raft_log_purge.specs.Counting.{counted, CountsIf, CountsStanding};
    ghost use Rattle.raft_log_purge.specs.Standing.{StandIfTold};
    ghost use Rattle.raft_log_purge_policy.specs.Surveying.{SurveysIfTold};

    /// The counts at an open: this many entries and values were written to Rewrite, none of them is garbage, and no
    /// group was asked. The next atomic group gets the number 1.
    pub fn new(alloc: Global, written: u64) -> PurgeCounts
        ensures rounds { (g : ℕ) → count_of result.rounds g ≡ 0 }
        ensures stats { result.stats ≡ added Rewrite written no_entries }
        ensures number { result.number ≡ 1 }
    {
        let mut stats = GlobalStats::new();
        stats.add(LogQueue::Rewrite, written);
        PurgeCounts {
            rounds: Rounds::new(alloc),
            stats,
            number: 1,
        }
    }

    /// Brings the counts to what is live in Rewrite. If more is live than the counts say, the difference is counted as
    /// written; if less, as garbage.
    pub fn count_live(&mut self, tables: &MemTables)
        ensures { CountsStanding tables.now self.old self.new }
    {
        let standing = tables.standing_count();
        self.count_to(standing);
    }

    /// Brings the counts to so much that is live in Rewrite.
    fn count_to(&mut self, standing: u64)
        ensures stats { self.new.stats ≡ counted standing self.old.stats }
        ensures rounds { self.new.rounds ≡ self.old.rounds }
        ensures number { self.new.number ≡ self.old.number }
    {
        let live = self.stats.live_entries(LogQueue::Rewrite);
        self.stats
            .add(LogQueue::Rewrite, standing.saturating_sub(live));
        self.stats
            .delete(LogQueue::Rewrite, live.saturating_sub(standing));
    }

    /// Brings the counts to what is live in Rewrite, if that is wanted.
    pub fn count_if(&mut self, wanted: bool, tables: &MemTables)
        ensures { CountsIf wanted tables.now self.old self.new }
    {
        if wanted {
            self.count_live(tables);
        }
    }

    /// Brings the counts to what is live in Rewrite, if that is wanted. If Append is past its threshold, the same
    /// walk over the groups makes the survey for its purge, and returns it. Else, and if memory ran out, returns
    /// none.
    pub(crate) fn count_and_survey<P: PipeLog>(
        &mut self,
        alloc: Global,
        wanted: bool,
        thresholds: &Thresholds,
        pipes: &P,
        tables: &MemTables,
    ) -> Option<Survey>
        ensures counted { CountsIf wanted tables.now self.old self.new }
        ensures seen { SurveysIfTold (count_of self.new.rounds) tables.now result }
    {
        match survey_if_past(alloc, thresholds, pipes, tables, &self.rounds) {
            Some(seen) => {
                self.count_behind(wanted, Some(seen.standing), tables);
                Some(seen)
            }
            None => {
                self.count_if(wanted, tables);
                None
            }
        }
    }

    /// Brings the counts to what is live in Rewrite, if that is wanted: to `standing`, if it was counted before.
    pub(crate) fn count_behind(&mut self, wanted: bool, standing: Option<u64>, tables: &MemTables)
        requires { StandIfTold standing tables.now }
        ensures { CountsIf wanted tables.now self.old self.new }
    {
        match standing {
            Some(standing) if wanted => self.count_to(standing),
            _ => self.count_if(wanted, tables),
        }
    }
}

/// Purges both queues if they are past their thresholds. Afterwards the map is the same, and nothing is pending.
/// - Syncs Append.
/// - If both queues are to be purged, takes files that no listener pins out of Append's live range, before it writes
///   anything. So it frees space on a full disk. Does nothing here if a tombstone is owed.
/// - Compacts Rewrite if it is past its threshold and enough of it is garbage.
/// - Purges Append if it is past its threshold then. First deletes files if no tombstone is owed. Writes the owed
///   tombstones, rewrites the groups that the rules pick, and takes files that no listener pins out of its live range.
///
/// If Append was purged, returns the groups that the caller is asked to compact, and how much is live in Rewrite now.
/// If Rewrite was compacted, also returns the groups that have many entries there. The groups are in rising order.
///
/// `known` is a survey of these tables and rounds, or `None`. If it is given, and Rewrite isn't rewritten, it spares a
/// walk over the groups.
///
/// Fails as one of its steps does: a sync, a rotation, a write of tombstones or copies, or a deletion. If it fails, the
/// map is kept; after `Failed`, the files keep it. The purge isn't counted among those in a row that asked the caller
/// to compact a group. If Rewrite was compacted in part, the old copies are counted as garbage.
pub fn purge_expired_files<P: PipeLog, L: Log>(
    alloc: Global,
    rt: &L,
    thresholds: &Thresholds,
    pipes: &mut P,
    tables: &mut MemTables,
    cache: &mut BlockCache,
    counts: &mut PurgeCounts,
    known: Option<Survey>,
) -> Result<Purged>
    requires { SurveysIfTold (count_of counts.old.rounds) tables.old known }
    ensures ok { IfOk result (λ purged. PurgesExpired (PipesHoldBack P.shown P.holds_back Append)
        thresholds.now tables.old tables.new counts.old counts.new purged.answered.items
        (shows (P.shown pipes.old) tables.old cache.old) (shows (P.shown pipes.new) tables.new cache.new)) }
    ensures err { IfErr result (λ error. FailsToPurgeExpired error
        (shows (P.shown pipes.old) tables.old cache.old) (shows (P.shown pipes.new) tables.new cache.new)) }
    ensures standing { IfOk result (λ purged. StandIfTold purged.standing tables.new) }
    ensures kept { OnErr result (KeepsCounts (PipesHoldBack P.shown P.holds_back Append)
        thresholds.now tables.old counts.old counts.new
        (shows (P.shown pipes.old) tables.old cache.old) (shows (P.shown pipes.new) tables.new cache.new)) }
    ensures rests { IsAtRest tables.old → IsAtRest tables.new }
    ensures owes { AddsNoMarks tables.old tables.new }
    ensures numbered { counts.old.number ≤ counts.new.number }
{
    pipes.sync(rt, LogQueue::Append)?;
    free_before_compaction(alloc, rt, thresholds, pipes, tables, cache, &counts.stats)?;
    let PurgeCounts { stats, number, .. } = &mut *counts;
    let restated = purge_rewrite(alloc, rt, thresholds, pipes, tables, cache, stats, number)?;
    let held = pipes.first_file_not_ready_for_purge(LogQueue::Append);
    let rounds = &mut counts.rounds;
    purge_append(
        alloc, rt, thresholds, pipes, tables, cache, rounds, held, restated, known,
    )
}

/// If both queues are to be purged, deletes files of Append before the compaction of Rewrite writes anything, as
/// `delete_before_writing` does. Else does nothing.
///
/// Fails with `Memory` before anything is done, or as `delete_before_writing` does. If it fails, the map is kept if
/// nothing of Append was pending; after `Failed`, the files keep it.
pub fn free_before_compaction<P: PipeLog, L: Log>(
    alloc: Global,
    rt: &L,
    thresholds: &Thresholds,
    pipes: &mut P,
    tables: &MemTables,
    cache: &mut BlockCache,
    stats: &GlobalStats,
) -> Result<()>
    ensures ok { OnOk result (FreesFirst (PipesHoldBack P.shown P.holds_back Append)
        thresholds.now stats.now tables.now
        (shows (P.shown pipes.old) tables.now cache.old) (shows (P.shown pipes.new) tables.now cache.new)) }
    ensures err { IfErr result (λ error. FailsToPurgeAppend error
        (shows (P.shown pipes.old) tables.now cache.old) (shows (P.shown pipes.new) tables.now cache.new)) }
{
    if !takes_append(thresholds, pipes) || !takes_rewrite(thresholds, stats, pipes) {
        return Ok(());
    }
    let pinned = pipes.first_file_not_ready_for_purge(LogQueue::Append);
    let marks = tables.pending_tombstones()?;
    delete_before_writing(alloc, rt, pipes, tables, cache, marks.as_slice(), pinned)
}

/// Compacts Rewrite if that is past its threshold and enough of it is garbage. Returns whether Rewrite was compacted.
fn purge_rewrite<P: PipeLog, L: Log>(
    alloc: Global,
    rt: &L,
    thresholds: &Thresholds,
    pipes: &mut P,
    tables: &mut MemTables,
    cache: &mut BlockCache,
    stats: &mut GlobalStats,
    number: &mut u64,
) -> Result<bool>
    ensures ok { IfOk result (λ restated. RewritesIfPast thresholds.now stats.old stats.new
        tables.old tables.new restated
        (shows (P.shown pipes.old) tables.old cache.old) (shows (P.shown pipes.new) tables.new cache.new)) }
    ensures err { IfErr result (λ error. FailsToRewriteRewrite error
        (shows (P.shown pipes.old) tables.old cache.old) (shows (P.shown pipes.new) tables.new cache.new)) }
    ensures kept { OnErr result (CountsRefused tables.old stats.old stats.new
        (shows (P.shown pipes.old) tables.old cache.old) (shows (P.shown pipes.new) tables.new cache.new)) }
    ensures rests { IsAtRest tables.old → IsAtRest tables.new }
    ensures owes { AddsNoMarks tables.old tables.new }
    ensures numbered { number.old ≤ number.new }
{
    if !takes_rewrite(thresholds, stats, pipes) {
        return Ok(false);
    }
    rewrite_rewrite_queue(alloc, rt, pipes, tables, cache, stats, number)?;
    Ok(true)
}

/// Syncs Append, and compacts Rewrite, whatever its size is: what is live there is written again, and its old files
/// leave its live range. Afterwards the map is the same, and nothing is pending in either queue.
///
/// Fails as one of its steps does: a sync, a rotation, a write, or a deletion. If it fails, the map is kept; after
/// `Failed`, the files keep it. The counts are then as `rewrite_rewrite_queue` leaves them.
pub fn sync_and_rewrite<P: PipeLog, L: Log>(
    alloc: Global,
    rt: &L,
    pipes: &mut P,
    tables: &mut MemTables,
    cache: &mut BlockCache,
    stats: &mut GlobalStats,
    number: &mut u64,
) -> Result<()>
    ensures ok { OnOk result (SyncsAndRewrites tables.new
        (shows (P.shown pipes.old) tables.old cache.old) (shows (P.shown pipes.new) tables.new cache.new)) }
    ensures err { IfErr result (λ error. FailsToPurgeExpired error
        (shows (P.shown pipes.old) tables.old cache.old) (shows (P.shown pipes.new) tables.new cache.new)) }
    ensures reset { OnOk result (stats.new ≡ reset_counts stats.old) }
    ensures kept { OnErr result (StopsAtRewrite tables.old stats.old stats.new
        (shows (P.shown pipes.old) tables.old cache.old) (shows (P.shown pipes.new) tables.new cache.new)) }
    ensures rests { IsAtRest tables.old → IsAtRest tables.new }
    ensures owes { AddsNoMarks tables.old tables.new }
    ensures numbered { number.old ≤ number.new }
{
    pipes.sync(rt, LogQueue::Append)?;
    rewrite_rewrite_queue(alloc, rt, pipes, tables, cache, stats, number)
}
