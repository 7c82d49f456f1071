//! Rotates both queues, and removes their files below the first in use.

ghost use Rattle.std.specs.Prelude.{◌≡◌, IfErr, IfOk, OnOk};
ghost use Rattle.raft_log_engine_laws.specs.EngineState.{shows};
ghost use Rattle.raft_log_memtables.specs.Tables.{IsAtRest};
ghost use Rattle.raft_log_purge_copy.specs.Owed.{AddsNoMarks};
ghost use Rattle.raft_log_purge_copy.specs.Stale.{FailsToPurgeAll, FailsToTurn, PurgesAllStale, TurnsAndLoses};

use crate::files::delete_stale_files;
use crate::marks::rewrite_marks;
use log::Log;
use raft_log_block_cache::BlockCache;
use raft_log_dual_pipes::PipeLog;
use raft_log_memtables::MemTables;
use raft_log_record_base::{LogQueue, Result};
use std::alloc::Global;

/// Syncs Append and writes the owed tombstones. Then rotates each queue, Rewrite first, and removes its files below the
/// first in use from its live range. Pending batches are part of the contents then, and nothing is pending.
///
/// Fails as a sync, `rewrite_marks`, a rotation or `delete_stale_files` does. The log keeps its contents then; after
/// `Failed`, the pending batches are all durable or all still pending.
pub fn purge_all_stale<P: PipeLog, L: Log>(
    alloc: Global,
    rt: &L,
    pipes: &mut P,
    tables: &mut MemTables,
    cache: &mut BlockCache,
) -> Result<()>
    ensures ok { OnOk result (PurgesAllStale tables.new
        (shows (P.shown pipes.old) tables.old cache.old) (shows (P.shown pipes.new) tables.new cache.new)) }
    ensures err { IfErr result (λ error. FailsToPurgeAll error
        (shows (P.shown pipes.old) tables.old cache.old) (shows (P.shown pipes.new) tables.new cache.new)) }
    ensures rests { IsAtRest tables.old → IsAtRest tables.new }
    ensures owes { AddsNoMarks tables.old tables.new }
{
    pipes.sync(rt, LogQueue::Append)?;
    rewrite_marks(alloc, rt, pipes, tables)?;
    turn_and_purge(alloc, rt, pipes, tables, cache, LogQueue::Rewrite)?;
    turn_and_purge(alloc, rt, pipes, tables, cache, LogQueue::Append)?;
    Ok(())
}

/// Rotates a queue, and removes its files below the first in use from its live range. Returns how many.
fn turn_and_purge<P: PipeLog, L: Log>(
    alloc: Global,
    rt: &L,
    pipes: &mut P,
    tables: &MemTables,
    cache: &mut BlockCache,
    queue: LogQueue,
) -> Result<usize>
    ensures ok { IfOk result (λ count. TurnsAndLoses queue tables.now count
        (shows (P.shown pipes.old) tables.now cache.old) (shows (P.shown pipes.new) tables.now cache.new)) }
    ensures err { IfErr result (λ error. FailsToTurn queue error
        (shows (P.shown pipes.old) tables.now cache.old) (shows (P.shown pipes.new) tables.now cache.new)) }
{
    pipes.rotate(alloc, rt, queue)?;
    let (_first, last) = pipes.file_span(queue);
    delete_stale_files(alloc, rt, pipes, tables, cache, queue, last)
}
