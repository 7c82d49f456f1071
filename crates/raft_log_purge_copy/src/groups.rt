//! Rewrites groups: copies all that they have in Append in files up to a gate to Rewrite.

ghost use Rattle.std.specs.Prelude.{IfErr, OnOk};
ghost use Rattle.raft_log_engine_laws.specs.EngineState.{shows};
ghost use Rattle.raft_log_memtables.specs.Tables.{IsAtRest};
ghost use Rattle.raft_log_purge_copy.specs.Groups.{
  RewritesEntries,
  RewritesGroup,
  RewritesGroups,
  StopsAtGroup,
  StopsAtGroups,
};
ghost use Rattle.raft_log_purge_copy.specs.Promised.{PromisesNoMoves};
ghost use Rattle.raft_log_purge_copy.specs.Syncing.{CountsEach, HandsCountOn};

use crate::keys::copy_keys;
use crate::rewriting::copy_entries;
use log::Log;
use raft_log_block_cache::BlockCache;
use raft_log_dual_pipes::PipeLog;
use raft_log_memtables::MemTables;
use raft_log_record_base::{FileSeq, Result};
use std::alloc::Global;

/// Rewrites groups, one after another: nothing of them is left in Append in files up to the gate. Syncs Rewrite after
/// each 512 KiB or so that it writes there, and not at the end. The log keeps its contents if no tombstone is owed.
///
/// Fails as `rewrite_group` does. Then some of what the groups have there may be rewritten.
pub fn rewrite_groups<P: PipeLog, L: Log>(
    alloc: Global,
    rt: &L,
    pipes: &mut P,
    tables: &mut MemTables,
    cache: &mut BlockCache,
    groups: &[u64],
    gate: FileSeq,
) -> Result<()>
    ensures ok { OnOk result (RewritesGroups groups.now gate
        (shows (P.shown pipes.old) tables.old cache.old) (shows (P.shown pipes.new) tables.new cache.new)) }
    ensures err { IfErr result (λ error. StopsAtGroups groups.now gate error
        (shows (P.shown pipes.old) tables.old cache.old) (shows (P.shown pipes.new) tables.new cache.new)) }
    ensures rests { IsAtRest tables.old → IsAtRest tables.new }
    ensures moves { PromisesNoMoves tables.old → PromisesNoMoves tables.new }
    ensures handed { OnOk result (CountsEach (P.shown pipes.old) (P.shown pipes.new)) }
{
    let mut unsynced = 0;
    for group in groups {
        rewrite_group(alloc, rt, pipes, tables, cache, *group, gate, &mut unsynced)?;
    }
    Ok(())
}

/// Rewrites a group: copies its entries in Append, in files up to the gate, to Rewrite, then its values in these files.
///
/// Fails as `copy_entries` and `copy_keys` do. The tables locate what was copied before in Rewrite then.
pub fn rewrite_group<P: PipeLog, L: Log>(
    alloc: Global,
    rt: &L,
    pipes: &mut P,
    tables: &mut MemTables,
    cache: &mut BlockCache,
    group: u64,
    gate: FileSeq,
    unsynced: &mut u64,
) -> Result<()>
    ensures ok { OnOk result (RewritesGroup group gate
        (shows (P.shown pipes.old) tables.old cache.old) (shows (P.shown pipes.new) tables.new cache.new)) }
    ensures err { IfErr result (λ error. StopsAtGroup group gate error
        (shows (P.shown pipes.old) tables.old cache.old) (shows (P.shown pipes.new) tables.new cache.new)) }
    ensures rests { IsAtRest tables.old → IsAtRest tables.new }
    ensures moves { PromisesNoMoves tables.old → PromisesNoMoves tables.new }
    ensures handed { OnOk result (HandsCountOn unsynced.old unsynced.new (P.shown pipes.old) (P.shown pipes.new)) }
{
    rewrite_entries(alloc, rt, pipes, tables, cache, group, gate, unsynced)?;
    copy_keys(alloc, rt, pipes, tables, group, gate, unsynced)?;
    Ok(())
}

/// Copies all entries that a group has in Append in files up to the gate, in records of at most 128 KiB or one entry.
fn rewrite_entries<P: PipeLog, L: Log>(
    alloc: Global,
    rt: &L,
    pipes: &mut P,
    tables: &mut MemTables,
    cache: &mut BlockCache,
    group: u64,
    gate: FileSeq,
    unsynced: &mut u64,
) -> Result<()>
    ensures ok { OnOk result (RewritesEntries group gate
        (shows (P.shown pipes.old) tables.old cache.old) (shows (P.shown pipes.new) tables.new cache.new)) }
    ensures err { IfErr result (λ error. StopsAtGroup group gate error
        (shows (P.shown pipes.old) tables.old cache.old) (shows (P.shown pipes.new) tables.new cache.new)) }
    ensures rests { IsAtRest tables.old → IsAtRest tables.new }
    ensures moves { PromisesNoMoves tables.old → PromisesNoMoves tables.new }
    ensures handed { OnOk result (HandsCountOn unsynced.old unsynced.new (P.shown pipes.old) (P.shown pipes.new)) }
{
    let mut more = true;
    while more {
        more = copy_entries(alloc, rt, pipes, tables, cache, group, gate, unsynced)?;
    }
    Ok(())
}
