//! A compaction of Rewrite in steps: it begins with a rotation. Then each step restates some of the groups that have
//! something in the files up to the one that was active before. The compaction ends once there are no such groups.

ghost use Rattle.std.specs.Prelude.{◌≡◌, ◌≤◌, ◌++◌, [], ◌∷◌, length, take, option_copied, if◌then◌else◌, IfErr, IfOk, OnErr, OnOk};
ghost use Rattle.std.specs.List.{filter};
ghost use Rattle.raft_log_fs.specs.Causes.{IsLater};
ghost use Rattle.raft_log_record_base.specs.declared.pipe_log.LogQueue.TheVariants.{Rewrite};
ghost use Rattle.raft_log_machine_laws.specs.Calls.Which.{InRewrite};
ghost use Rattle.raft_log_dual_pipes.specs.Calls.{FailsToRotateQueue, TellsFailure};
ghost use Rattle.raft_log_dual_pipes.specs.Numbers.{EndsNumbers};
ghost use Rattle.raft_log_memtables.specs.Tables.{IsAtRest, shown_of};
ghost use Rattle.raft_log_memtables.specs.Walking.{ListsGroups, least_in};
ghost use Rattle.raft_log_purge_copy.specs.raft_log_engine_laws.specs.EngineState.{shows};
ghost use Rattle.raft_log_purge_copy.specs.Owed.{AddsNoMarks};
ghost use Rattle.raft_log_purge.specs.Garbage.{CountsGarbage};
ghost use Rattle.raft_log_purge.specs.RewriteQueue.{FailsToRewriteRewrite, reset_counts};
ghost use Rattle.raft_log_purge_steps.specs.Compacting.{
  BeginsCompaction,
  EndsCompaction,
  GoesOnCompacting,
  RestatesSome,
  StopsCompacting,
  SyncsAndDeletes,
  is_at_most,
  needs_up_to,
};

use crate::step::PurgeStep;
use crate::weights::affordable;
use log::Log;
use raft_log_dual_pipes::PipeLog;
use raft_log_memtable::{GlobalStats, MemTable};
use raft_log_memtables::MemTables;
use raft_log_purge::PurgeCounts;
use raft_log_purge::garbage::count_restated;
use raft_log_purge_copy::delete_stale_files;
use raft_log_purge_copy::raft_log_block_cache::BlockCache;
use raft_log_purge_copy::restating::compact_rewrite_groups;
use raft_log_purge_policy::answered_groups;
use raft_log_record_base::{FileSeq, LogQueue, Result};
use std::alloc::{AllocError, Global};

/// Begins a compaction of Rewrite: rotates it. `until` becomes the number of the file that was active.
///
/// Fails as a rotation does; then no compaction has begun.
pub fn begin_compaction<P: PipeLog, L: Log>(
    alloc: Global,
    rt: &L,
    pipes: &mut P,
    until: &mut Option<FileSeq>,
) -> Result<PurgeStep>
    ensures ok { IfOk result (λ step. BeginsCompaction until.new step (P.shown pipes.old) (P.shown pipes.new)) }
    ensures err { IfErr result (λ error.
        FailsToRotateQueue InRewrite error (P.shown pipes.old) (P.shown pipes.new)) }
    ensures range { IfErr result (λ error. EndsNumbers InRewrite error (P.shown pipes.old)) }
    ensures fails { OnErr result (TellsFailure result (P.shown pipes.new)) }
    ensures later { IsLater (P.shown pipes.old).disk (P.shown pipes.new).disk }
    ensures kept { OnErr result (until.new ≡ until.old) }
{
    let (_first, last) = pipes.file_span(LogQueue::Rewrite);
    match pipes.rotate(alloc, rt, LogQueue::Rewrite) {
        Ok(()) => {
            *until = Some(last);
            Ok(PurgeStep::silent(alloc, true))
        }
        Err(error) => Err(error),
    }
}

/// Continues a compaction of Rewrite up to this file.
/// - If groups have something in Rewrite's files up to it, restates some of them: the fewest that weigh as much as the
///   budget, but at least one, or all. Their old copies count as garbage.
/// - Else ends the compaction: subtracts the garbage from the counts, and returns the groups that have many entries in
///   Rewrite. `until` becomes `None`.
///
/// In both cases syncs Rewrite, and takes the files below the lowest one in use out of its live range.
///
/// The map is kept only if nothing of Append is pending. Fails with `Memory` before anything is done, or as
/// `compact_rewrite_groups`, a sync or `delete_stale_files` does. If it fails, the map is kept too, after `Failed` by
/// the files. The old copies of groups that were restated count as garbage.
pub fn go_on_compacting<P: PipeLog, L: Log>(
    alloc: Global,
    rt: &L,
    pipes: &mut P,
    tables: &mut MemTables,
    cache: &mut BlockCache,
    counts: &mut PurgeCounts,
    until: &mut Option<FileSeq>,
    file: FileSeq,
    budget: u64,
) -> Result<PurgeStep>
    ensures ok { IfOk result (λ step. GoesOnCompacting file budget until.old until.new
        tables.old tables.new counts.old counts.new step
        (shows (P.shown pipes.old) tables.old cache.old) (shows (P.shown pipes.new) tables.new cache.new)) }
    ensures err { IfErr result (λ error. FailsToRewriteRewrite error
        (shows (P.shown pipes.old) tables.old cache.old) (shows (P.shown pipes.new) tables.new cache.new)) }
    ensures kept { OnErr result (StopsCompacting file budget until.old until.new tables.old counts.old counts.new
        (shows (P.shown pipes.old) tables.old cache.old) (shows (P.shown pipes.new) tables.new cache.new)) }
    ensures rests { IsAtRest tables.old → IsAtRest tables.new }
    ensures owes { AddsNoMarks tables.old tables.new }
    ensures numbered { counts.old.number ≤ counts.new.number }
{
    let listed = groups_up_to(alloc, tables, file)?;
    let groups = listed.as_slice();
    let PurgeCounts { stats, number, .. } = counts;
    if groups.is_empty() {
        return end_compaction(alloc, rt, pipes, tables, cache, stats, until);
    }
    let count = affordable(alloc, tables, groups, None, budget)?;
    let part = first_groups(groups, count);
    restate_some(alloc, rt, pipes, tables, cache, stats, number, part, file)?;
    Ok(PurgeStep::silent(alloc, true))
}

/// The first `count` of these groups.
pub(crate) fn first_groups(groups: &[u64], count: usize) -> &[u64]
    requires { count ≤ length groups.now }
    ensures { result.now ≡ take count groups.now }
{
    &groups[..count]
}

/// Ends a compaction of Rewrite: syncs Rewrite, takes files out of its live range, and subtracts the garbage from the
/// counts. Returns the groups that have more than 32 entries in Rewrite.
fn end_compaction<P: PipeLog, L: Log>(
    alloc: Global,
    rt: &L,
    pipes: &mut P,
    tables: &MemTables,
    cache: &mut BlockCache,
    stats: &mut GlobalStats,
    until: &mut Option<FileSeq>,
) -> Result<PurgeStep>
    ensures ok { IfOk result (λ step. EndsCompaction until.new tables.now stats.old stats.new step
        (shows (P.shown pipes.old) tables.now cache.old) (shows (P.shown pipes.new) tables.now cache.new)) }
    ensures err { IfErr result (λ error. FailsToRewriteRewrite error
        (shows (P.shown pipes.old) tables.now cache.old) (shows (P.shown pipes.new) tables.now cache.new)) }
    ensures counted { OnErr result (stats.new ≡ stats.old) }
    ensures kept { OnErr result (until.new ≡ until.old) }
{
    let answered = answered_groups(alloc, tables, None, true)?;
    sync_and_delete(alloc, rt, pipes, tables, cache)?;
    stats.reset_rewrite_counters();
    *until = None;
    Ok(PurgeStep {
        answered,
        more: true,
    })
}

/// Restates these groups, and counts their old copies as garbage. Then syncs Rewrite, and takes files out of its live
/// range.
fn restate_some<P: PipeLog, L: Log>(
    alloc: Global,
    rt: &L,
    pipes: &mut P,
    tables: &mut MemTables,
    cache: &mut BlockCache,
    stats: &mut GlobalStats,
    number: &mut u64,
    groups: &[u64],
    file: FileSeq,
) -> Result<()>
    ensures ok { OnOk result (RestatesSome groups.now tables.new
        (shows (P.shown pipes.old) tables.old cache.old) (shows (P.shown pipes.new) tables.new cache.new)) }
    ensures err { IfErr result (λ error. FailsToRewriteRewrite error
        (shows (P.shown pipes.old) tables.old cache.old) (shows (P.shown pipes.new) tables.new cache.new)) }
    ensures stats { CountsGarbage file (shown_of tables.new) groups.now stats.old stats.new }
    ensures rests { IsAtRest tables.old → IsAtRest tables.new }
    ensures owes { AddsNoMarks tables.old tables.new }
    ensures numbered { number.old ≤ number.new }
{
    let restated = compact_rewrite_groups(alloc, rt, pipes, tables, cache, groups, number);
    count_restated(stats, tables, groups, file);
    restated?;
    sync_and_delete(alloc, rt, pipes, tables, cache)
}

/// Syncs Rewrite, and takes its files below the lowest one in use out of its live range.
fn sync_and_delete<P: PipeLog, L: Log>(
    alloc: Global,
    rt: &L,
    pipes: &mut P,
    tables: &MemTables,
    cache: &mut BlockCache,
) -> Result<()>
    ensures ok { OnOk result (SyncsAndDeletes tables.now
        (shows (P.shown pipes.old) tables.now cache.old) (shows (P.shown pipes.new) tables.now cache.new)) }
    ensures err { IfErr result (λ error. FailsToRewriteRewrite error
        (shows (P.shown pipes.old) tables.now cache.old) (shows (P.shown pipes.new) tables.now cache.new)) }
{
    pipes.sync(rt, LogQueue::Rewrite)?;
    let (_first, last) = pipes.file_span(LogQueue::Rewrite);
    delete_stale_files(alloc, rt, pipes, tables, cache, LogQueue::Rewrite, last)?;
    Ok(())
}

/// The groups that need a file of Rewrite up to this one, from the least up.
fn groups_up_to(alloc: Global, tables: &MemTables, file: FileSeq) -> Result<Vec<u64>, AllocError>
    ensures { IfOk result (λ groups. ListsGroups (needs_up_to file tables.now) groups.items) }
{
    let known = tables.known_groups()?;
    those_up_to(alloc, tables, known.as_slice(), file)
}

/// Those of these groups that need a file of Rewrite up to this one.
fn those_up_to(
    alloc: Global,
    tables: &MemTables,
    groups: &[u64],
    file: FileSeq,
) -> Result<Vec<u64>, AllocError>
    ensures { IfOk result (λ picked. picked.items ≡ filter (needs_up_to file tables.now) groups.now) }
{
    let mut picked = Vec::new(alloc);
    for group in groups {
        let wanted = needs_up_to(tables.known_table(*group), file);
        push_if(&mut picked, *group, wanted)?;
    }
    Ok(picked)
}

/// Adds a group to those that are picked, if it is wanted.
fn push_if(picked: &mut Vec<u64>, group: u64, wanted: bool) -> Result<(), AllocError>
    ensures { OnOk result (picked.new.items
        ≡ picked.old.items ++ (if wanted then group ∷ [] else [])) }
{
    if wanted {
        picked.push(group)?;
    }
    Ok(())
}

/// Whether a group with this table, if it has one, needs a file of Rewrite up to this one.
fn needs_up_to(table: Option<&MemTable>, file: FileSeq) -> bool
    ensures { result ≡ is_at_most file (least_in Rewrite (option_copied table.entry)) }
{
    match table {
        Some(table) => is_at_most(table.min_file_seq(LogQueue::Rewrite), file),
        None => false,
    }
}

/// Whether there is a least file, and it is at most this one.
fn is_at_most(least: Option<FileSeq>, file: FileSeq) -> bool
    ensures { result ≡ is_at_most file least }
{
    match least {
        Some(least) => least <= file,
        None => false,
    }
}
