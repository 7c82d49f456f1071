//! Purges that bring the counts of Rewrite to what is live there, before they begin. If they succeed, `purge_and_count`
//! and `rewrite_append_and_count` do so again at the end, and `rewrite_and_count` resets the counts.

ghost use Rattle.std.specs.Prelude.{◌≤◌, IfErr, IfOk, OnErr, OnOk};
ghost use Rattle.raft_log_record_base.specs.declared.pipe_log.LogQueue.TheVariants.{Append};
ghost use Rattle.raft_log_dual_pipes.specs.HoldingBack.{PipesHoldBack};
ghost use Rattle.raft_log_purge_copy.specs.raft_log_engine_laws.specs.EngineState.{shows};
ghost use Rattle.raft_log_memtables.specs.Tables.{IsAtRest};
ghost use Rattle.raft_log_purge_copy.specs.Owed.{AddsNoMarks};
ghost use Rattle.raft_log_purge.specs.Append.{FailsToRewriteAppend, RewritesAppend};
ghost use Rattle.raft_log_purge.specs.Counted.{
  CountsAndKeeps,
  CountsAndResets,
  CountsIfPast,
  PurgesAndCounts,
};
ghost use Rattle.raft_log_purge.specs.Counting.{CountsStanding, CountsTwice};
ghost use Rattle.raft_log_purge.specs.ExpiredFiles.{FailsToPurgeExpired, SyncsAndRewrites};

use crate::append::rewrite_append_queue;
use crate::expired::Purged;
use crate::expired_files::{PurgeCounts, purge_expired_files, sync_and_rewrite};
use log::Log;
use raft_log_dual_pipes::PipeLog;
use raft_log_memtables::MemTables;
use raft_log_purge_copy::raft_log_block_cache::BlockCache;
use raft_log_purge_policy::{Thresholds, is_any_past};
use raft_log_record_base::{FileSeq, Result};
use std::alloc::Global;

/// Purges both queues as `purge_expired_files` does, and returns the same groups. If a queue is past its threshold, it
/// first brings the counts to what is live in Rewrite. If the purge succeeds, it does so again, else the counts are as
/// `purge_expired_files` leaves them.
pub fn purge_and_count<P: PipeLog, L: Log>(
    alloc: Global,
    rt: &L,
    thresholds: &Thresholds,
    pipes: &mut P,
    tables: &mut MemTables,
    cache: &mut BlockCache,
    counts: &mut PurgeCounts,
) -> Result<Vec<u64>>
    ensures ok { IfOk result (λ groups. PurgesAndCounts (PipesHoldBack P.shown P.holds_back Append)
        thresholds.now tables.old tables.new counts.old counts.new groups.items
        (shows (P.shown pipes.old) tables.old cache.old) (shows (P.shown pipes.new) tables.new cache.new)) }
    ensures err { IfErr result (λ error. FailsToPurgeExpired error
        (shows (P.shown pipes.old) tables.old cache.old) (shows (P.shown pipes.new) tables.new cache.new)) }
    ensures kept { OnErr result (CountsIfPast (PipesHoldBack P.shown P.holds_back Append)
        thresholds.now tables.old counts.old counts.new
        (shows (P.shown pipes.old) tables.old cache.old) (shows (P.shown pipes.new) tables.new cache.new)) }
    ensures rests { IsAtRest tables.old → IsAtRest tables.new }
    ensures owes { AddsNoMarks tables.old tables.new }
    ensures numbered { counts.old.number ≤ counts.new.number }
{
    let past = is_any_past(thresholds, pipes);
    let seen = counts.count_and_survey(alloc, past, thresholds, pipes, tables);
    let Purged { answered, standing } = purge_expired_files(
        alloc, rt, thresholds, pipes, tables, cache, counts, seen,
    )?;
    counts.count_behind(past, standing, tables);
    Ok(answered)
}

/// Syncs Append and compacts Rewrite as `sync_and_rewrite` does. Before that, the counts are brought to what is live in
/// Rewrite. Whether it succeeds or fails, they are then as `sync_and_rewrite` leaves them.
pub fn rewrite_and_count<P: PipeLog, L: Log>(
    alloc: Global,
    rt: &L,
    pipes: &mut P,
    tables: &mut MemTables,
    cache: &mut BlockCache,
    counts: &mut PurgeCounts,
) -> Result<()>
    ensures ok { OnOk result (SyncsAndRewrites tables.new
        (shows (P.shown pipes.old) tables.old cache.old) (shows (P.shown pipes.new) tables.new cache.new)) }
    ensures err { IfErr result (λ error. FailsToPurgeExpired error
        (shows (P.shown pipes.old) tables.old cache.old) (shows (P.shown pipes.new) tables.new cache.new)) }
    ensures reset { OnOk result (CountsAndResets tables.old counts.old counts.new) }
    ensures kept { OnErr result (CountsAndKeeps tables.old counts.old counts.new
        (shows (P.shown pipes.old) tables.old cache.old) (shows (P.shown pipes.new) tables.new cache.new)) }
    ensures rests { IsAtRest tables.old → IsAtRest tables.new }
    ensures owes { AddsNoMarks tables.old tables.new }
    ensures numbered { counts.old.number ≤ counts.new.number }
{
    counts.count_live(tables);
    let PurgeCounts { stats, number, .. } = counts;
    sync_and_rewrite(alloc, rt, pipes, tables, cache, stats, number)
}

/// Rewrites Append as `rewrite_append_queue` does. The counts are brought to what is live in Rewrite before it, and
/// after it if it succeeds.
pub fn rewrite_append_and_count<P: PipeLog, L: Log>(
    alloc: Global,
    rt: &L,
    pipes: &mut P,
    tables: &mut MemTables,
    cache: &mut BlockCache,
    counts: &mut PurgeCounts,
    watermark: Option<FileSeq>,
    exit_after_step: Option<u64>,
) -> Result<()>
    ensures ok { OnOk result (RewritesAppend watermark exit_after_step tables.new
        (shows (P.shown pipes.old) tables.old cache.old) (shows (P.shown pipes.new) tables.new cache.new)) }
    ensures err { IfErr result (λ error. FailsToRewriteAppend error
        (shows (P.shown pipes.old) tables.old cache.old) (shows (P.shown pipes.new) tables.new cache.new)) }
    ensures counted { OnOk result (CountsTwice tables.old tables.new counts.old counts.new) }
    ensures kept { OnErr result (CountsStanding tables.old counts.old counts.new) }
    ensures rests { IsAtRest tables.old → IsAtRest tables.new }
    ensures owes { AddsNoMarks tables.old tables.new }
{
    counts.count_live(tables);
    let rewritten = rewrite_append_queue(
        alloc,
        rt,
        pipes,
        tables,
        cache,
        watermark,
        exit_after_step,
    );
    if rewritten.is_ok() {
        counts.count_live(tables);
    }
    rewritten
}
