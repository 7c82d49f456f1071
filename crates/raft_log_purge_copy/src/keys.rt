//! Copies a group's values in Append to Rewrite, all as one record.

ghost use Rattle.std.specs.Prelude.{◌≡◌, IfErr, IfOk, OnOk};
ghost use Rattle.raft_log_block_cache.specs.declared.block_cache.BlockCache.{BlockCache};
ghost use Rattle.raft_log_engine_laws.specs.EngineState.{shows};
ghost use Rattle.raft_log_memtable_index.specs.Listing.{ListsAll, appended_values};
ghost use Rattle.raft_log_memtables.specs.Tables.{IsAtRest, shown_of};
ghost use Rattle.raft_log_purge_copy.specs.Keys.{CopiesKeys, FailsToCopyKeys, IsKeysBatch};
ghost use Rattle.raft_log_purge_copy.specs.Refusals.{AreUnput};
ghost use Rattle.raft_log_purge_copy.specs.Promised.{PromisesNoMoves};
ghost use Rattle.raft_log_purge_copy.specs.Syncing.{HandsCountOn};

use crate::copies::write_copies;
use log::Log;
use raft_log_dual_pipes::PipeLog;
use raft_log_memtables::MemTables;
use raft_log_record_base::{FileSeq, Result};
use raft_log_record_batches::LogBatch;
use raft_log_record_items::Bytes;
use std::alloc::{AllocError, Global};

/// Copies all values that a group has in Append in files up to the gate. Writes them to Rewrite as one record, where
/// the tables locate them then. If there are none, writes nothing.
///
/// Fails with `Full` or `Memory`, with `InvalidArgument` if a value would be a mark of an atomic group, or as a write
/// to Rewrite does. If it fails, what the tables show is unchanged.
pub fn copy_keys<P: PipeLog, L: Log>(
    alloc: Global,
    rt: &L,
    pipes: &mut P,
    tables: &mut MemTables,
    group: u64,
    gate: FileSeq,
    unsynced: &mut u64,
) -> Result<()>
    ensures ok { OnOk result ((cache : BlockCache) → CopiesKeys group gate
        (shows (P.shown pipes.old) tables.old cache) (shows (P.shown pipes.new) tables.new cache)) }
    ensures err { IfErr result (λ error. (cache : BlockCache) → FailsToCopyKeys error
        (shows (P.shown pipes.old) tables.old cache) (shows (P.shown pipes.new) tables.new cache)) }
    ensures rests { IsAtRest tables.old → IsAtRest tables.new }
    ensures moves { PromisesNoMoves tables.old → PromisesNoMoves tables.new }
    ensures handed { OnOk result (HandsCountOn unsynced.old unsynced.new (P.shown pipes.old) (P.shown pipes.new)) }
{
    let pairs = next_keys(alloc, tables, group, gate)?;
    let batch = keys_batch(alloc, group, pairs.as_slice())?;
    write_copies(alloc, rt, pipes, tables, batch, gate, unsynced)?;
    Ok(())
}

/// The keys and values of a group that are to be copied: those in Append, in files up to the gate.
fn next_keys(
    alloc: Global,
    tables: &MemTables,
    group: u64,
    gate: FileSeq,
) -> Result<Vec<(Bytes, Bytes)>, AllocError>
    ensures { IfOk result (λ pairs. ListsAll (appended_values gate (shown_of tables.now group)) pairs.items) }
{
    let mut pairs = Vec::new(alloc);
    if let Some(table) = tables.known_table(group) {
        table.fetch_kvs_before(gate, &mut pairs)?;
    }
    Ok(pairs)
}

/// A batch that puts these keys of a group with their values, as they were read: a key may be one of the log's own.
fn keys_batch(alloc: Global, group: u64, pairs: &[(Bytes, Bytes)]) -> Result<LogBatch>
    ensures ok { IfOk result (IsKeysBatch group pairs.now) }
    ensures errors { IfErr result (λ error. AreUnput group pairs.now error) }
{
    let mut batch = LogBatch::with_capacity(alloc, pairs.len())?;
    for pair in pairs {
        batch.put_as_read(alloc, group, pair.0.as_slice(), pair.1.as_slice())?;
    }
    Ok(batch)
}
