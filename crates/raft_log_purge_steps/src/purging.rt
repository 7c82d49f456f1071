//! One step of a purge of both queues.

ghost use Rattle.std.specs.Prelude.{◌≡◌, ◌≤◌, IfErr, IfOk, OnErr};
ghost use Rattle.raft_log_record_base.specs.declared.pipe_log.LogQueue.TheVariants.{Append};
ghost use Rattle.raft_log_dual_pipes.specs.HoldingBack.{PipesHoldBack};
ghost use Rattle.raft_log_purge_copy.specs.raft_log_engine_laws.specs.EngineState.{shows};
ghost use Rattle.raft_log_memtables.specs.Tables.{IsAtRest};
ghost use Rattle.raft_log_purge_copy.specs.Owed.{AddsNoMarks};
ghost use Rattle.raft_log_purge.specs.Expired.{FailsToPurgeAppend};
ghost use Rattle.raft_log_purge.specs.ExpiredFiles.{FailsToPurgeExpired};
ghost use Rattle.raft_log_purge_steps.specs.Steps.{PurgesStep, StepsAnew, StopsAnew, StopsStep};

use crate::compacting::{begin_compaction, go_on_compacting};
use crate::part::purge_part;
use crate::step::PurgeStep;
use log::Log;
use raft_log_dual_pipes::PipeLog;
use raft_log_memtables::MemTables;
use raft_log_purge::PurgeCounts;
use raft_log_purge::expired_files::free_before_compaction;
use raft_log_purge_copy::raft_log_block_cache::BlockCache;
use raft_log_purge_policy::{Thresholds, is_any_past, takes_append, takes_rewrite};
use raft_log_record_base::{FileSeq, LogQueue, Result};
use std::alloc::Global;

/// Does one step of a purge of both queues. Syncs Append, and then:
/// - If a compaction of Rewrite is under way, up to the file `until`, continues or ends it.
/// - Else, if Rewrite is past its threshold and enough of it is garbage, begins a compaction. Before that, if Append is
///   past its threshold too, deletes files of Append as a whole purge does (`free_before_compaction`).
/// - Else, if Append is past its threshold, purges it in part.
/// - Else does nothing more.
///
/// A step copies the fewest groups that weigh as much as the budget, but at least one. A group weighs what is copied of
/// it, in bytes.
///
/// Returns the groups that the caller is asked to compact, and whether more may be due. If not, this purge is done: no
/// compaction is under way, or due. Append isn't past its threshold, or this step did what a whole purge of it does.
///
/// If no compaction is under way, and a queue is past its threshold, the counts are first brought to what is live in
/// Rewrite. This and the choice of groups take one walk over all groups each.
///
/// Fails as one of its parts does. If it fails, the map is kept, after `Failed` by the files, no round is counted, and
/// the same compaction is under way.
pub fn purge_some<P: PipeLog, L: Log>(
    alloc: Global,
    rt: &L,
    thresholds: &Thresholds,
    pipes: &mut P,
    tables: &mut MemTables,
    cache: &mut BlockCache,
    counts: &mut PurgeCounts,
    until: &mut Option<FileSeq>,
    budget: u64,
) -> Result<PurgeStep>
    ensures ok { IfOk result (λ step. PurgesStep (PipesHoldBack P.shown P.holds_back Append)
        thresholds.now budget until.old until.new tables.old tables.new counts.old counts.new step
        (shows (P.shown pipes.old) tables.old cache.old) (shows (P.shown pipes.new) tables.new cache.new)) }
    ensures err { IfErr result (λ error. FailsToPurgeExpired error
        (shows (P.shown pipes.old) tables.old cache.old) (shows (P.shown pipes.new) tables.new cache.new)) }
    ensures kept { OnErr result (StopsStep thresholds.now budget until.old until.new
        tables.old counts.old counts.new
        (shows (P.shown pipes.old) tables.old cache.old) (shows (P.shown pipes.new) tables.new cache.new)) }
    ensures rests { IsAtRest tables.old → IsAtRest tables.new }
    ensures owes { AddsNoMarks tables.old tables.new }
    ensures numbered { counts.old.number ≤ counts.new.number }
{
    pipes.sync(rt, LogQueue::Append)?;
    match *until {
        Some(file) => go_on_compacting(
            alloc, rt, pipes, tables, cache, counts, until, file, budget,
        ),
        None => begin_or_purge(
            alloc, rt, thresholds, pipes, tables, cache, counts, until, budget,
        ),
    }
}

/// A step that finds no compaction under way, after Append was synced.
fn begin_or_purge<P: PipeLog, L: Log>(
    alloc: Global,
    rt: &L,
    thresholds: &Thresholds,
    pipes: &mut P,
    tables: &mut MemTables,
    cache: &mut BlockCache,
    counts: &mut PurgeCounts,
    until: &mut Option<FileSeq>,
    budget: u64,
) -> Result<PurgeStep>
    ensures ok { IfOk result (λ step. StepsAnew (PipesHoldBack P.shown P.holds_back Append)
        thresholds.now budget until.old until.new tables.old tables.new counts.old counts.new step
        (shows (P.shown pipes.old) tables.old cache.old) (shows (P.shown pipes.new) tables.new cache.new)) }
    ensures err { IfErr result (λ error. FailsToPurgeAppend error
        (shows (P.shown pipes.old) tables.old cache.old) (shows (P.shown pipes.new) tables.new cache.new)) }
    ensures kept { OnErr result (StopsAnew thresholds.now until.old until.new
        tables.old counts.old counts.new
        (shows (P.shown pipes.old) tables.old cache.old)) }
    ensures rests { IsAtRest tables.old → IsAtRest tables.new }
    ensures owes { AddsNoMarks tables.old tables.new }
    ensures numbered { counts.old.number ≤ counts.new.number }
{
    counts.count_if(is_any_past(thresholds, pipes), tables);
    if takes_rewrite(thresholds, &counts.stats, pipes) {
        free_before_compaction(alloc, rt, thresholds, pipes, tables, cache, &counts.stats)?;
        return begin_compaction(alloc, rt, pipes, until);
    }
    if !takes_append(thresholds, pipes) {
        return Ok(PurgeStep::silent(alloc, false));
    }
    let held = pipes.first_file_not_ready_for_purge(LogQueue::Append);
    let rounds = &mut counts.rounds;
    purge_part(alloc, rt, pipes, tables, cache, rounds, held, budget)
}
