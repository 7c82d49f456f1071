//! Rewrite is compacted: what is live there is written again, and its old files leave its live range.

ghost use Rattle.std.specs.Prelude.{◌≡◌, ◌≤◌, IfErr, OnErr, OnOk};
ghost use Rattle.raft_log_purge_copy.specs.raft_log_engine_laws.specs.EngineState.{shows};
ghost use Rattle.raft_log_memtables.specs.Tables.{IsAtRest, has_table};
ghost use Rattle.raft_log_memtables.specs.Walking.{ListsGroups};
ghost use Rattle.raft_log_purge_copy.specs.Owed.{AddsNoMarks};
ghost use Rattle.raft_log_purge.specs.Garbage.{CountsRefused};
ghost use Rattle.raft_log_purge.specs.RewriteQueue.{FailsToRewriteRewrite, RestatesAll, RewritesRewrite, reset_counts};

use crate::garbage::count_restated;
use log::Log;
use raft_log_dual_pipes::PipeLog;
use raft_log_memtable::GlobalStats;
use raft_log_memtables::MemTables;
use raft_log_purge_copy::delete_stale_files;
use raft_log_purge_copy::raft_log_block_cache::BlockCache;
use raft_log_purge_copy::restating::compact_rewrite_groups;
use raft_log_record_base::{LogQueue, Result};
use std::alloc::Global;

/// Compacts Rewrite: rotates it, restates all groups, syncs it, and subtracts the garbage from the counts. Then its
/// files below the lowest one in use leave its live range. `number` is the number of the next atomic group, and is
/// counted up.
///
/// The map is kept only if nothing of Append is pending: the caller has synced it.
///
/// Fails with `Memory` before anything is done, or as a rotation, `compact_rewrite_groups`, a sync or
/// `delete_stale_files` does. If it fails, the map is kept too; after `Failed`, the files keep it. If all groups were
/// restated and synced, the garbage is subtracted from the counts. Else the old copies of the groups that were restated
/// are counted as garbage. What was written of a group that wasn't restated isn't counted.
pub fn rewrite_rewrite_queue<P: PipeLog, L: Log>(
    alloc: Global,
    rt: &L,
    pipes: &mut P,
    tables: &mut MemTables,
    cache: &mut BlockCache,
    stats: &mut GlobalStats,
    number: &mut u64,
) -> Result<()>
    ensures ok { OnOk result (RewritesRewrite tables.new
        (shows (P.shown pipes.old) tables.old cache.old) (shows (P.shown pipes.new) tables.new cache.new)) }
    ensures err { IfErr result (λ error. FailsToRewriteRewrite error
        (shows (P.shown pipes.old) tables.old cache.old) (shows (P.shown pipes.new) tables.new cache.new)) }
    ensures rests { IsAtRest tables.old → IsAtRest tables.new }
    ensures owes { AddsNoMarks tables.old tables.new }
    ensures reset { OnOk result (stats.new ≡ reset_counts stats.old) }
    ensures kept { OnErr result (CountsRefused tables.old stats.old stats.new
        (shows (P.shown pipes.old) tables.old cache.old) (shows (P.shown pipes.new) tables.new cache.new)) }
    ensures counted { number.old ≤ number.new }
{
    let groups = tables.known_groups()?;
    let (_begin, former) = pipes.file_span(LogQueue::Rewrite);
    pipes.rotate(alloc, rt, LogQueue::Rewrite)?;
    let known = groups.as_slice();
    if let Err(error) = restate_all(alloc, rt, pipes, tables, cache, known, number) {
        count_restated(stats, tables, known, former);
        return Err(error);
    }
    stats.reset_rewrite_counters();
    let (_first, last) = pipes.file_span(LogQueue::Rewrite);
    delete_stale_files(alloc, rt, pipes, tables, cache, LogQueue::Rewrite, last)?;
    Ok(())
}

/// Restates all groups, which these are, and syncs Rewrite.
fn restate_all<P: PipeLog, L: Log>(
    alloc: Global,
    rt: &L,
    pipes: &mut P,
    tables: &mut MemTables,
    cache: &mut BlockCache,
    groups: &[u64],
    number: &mut u64,
) -> Result<()>
    requires { ListsGroups (has_table tables.old) groups.now }
    ensures ok { OnOk result (RestatesAll
        (shows (P.shown pipes.old) tables.old cache.old) (shows (P.shown pipes.new) tables.new cache.new)) }
    ensures err { IfErr result (λ error. FailsToRewriteRewrite error
        (shows (P.shown pipes.old) tables.old cache.old) (shows (P.shown pipes.new) tables.new cache.new)) }
    ensures rests { IsAtRest tables.old → IsAtRest tables.new }
    ensures owes { AddsNoMarks tables.old tables.new }
    ensures counted { number.old ≤ number.new }
{
    compact_rewrite_groups(alloc, rt, pipes, tables, cache, groups, number)?;
    pipes.sync(rt, LogQueue::Rewrite)
}
