//! A caller of `raft_log_purge_copy`: moves a group's entries and values from Append to Rewrite.

ghost use Rattle.std.specs.Prelude.{OnOk};
ghost use Rattle.raft_log_engine_core.specs.raft_log_engine_laws.specs.EngineState.{shows};
ghost use Rattle.raft_examples.specs.Rewriting.{MovesGroup};

use log::Log;
use raft_log_block_cache::BlockCache;
use raft_log_dual_pipes::PipeLog;
use raft_log_memtables::MemTables;
use raft_log_purge_copy::{rewrite_group, rewrite_marks};
use raft_log_record_base::{FileSeq, LogQueue, Result};
use std::alloc::Global;

/// Syncs Append, and writes the owed tombstones. Then rewrites what a group has in Append in files up to the gate, and
/// syncs Rewrite.
pub fn move_group<P: PipeLog, L: Log>(
    alloc: Global,
    rt: &L,
    pipes: &mut P,
    tables: &mut MemTables,
    cache: &mut BlockCache,
    group: u64,
    gate: FileSeq,
) -> Result<()>
    ensures ok { OnOk result (MovesGroup group gate
        (shows (P.shown pipes.old) tables.old cache.old) (shows (P.shown pipes.new) tables.new cache.new)) }
{
    let mut unsynced = 0;
    pipes.sync(rt, LogQueue::Append)?;
    rewrite_marks(alloc, rt, pipes, tables)?;
    rewrite_group(alloc, rt, pipes, tables, cache, group, gate, &mut unsynced)?;
    pipes.sync(rt, LogQueue::Rewrite)?;
    Ok(())
}
