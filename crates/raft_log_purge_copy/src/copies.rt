//! Writes copies to Rewrite, where the tables locate the copied items then.

ghost use Rattle.std.specs.Prelude.{◌≡◌, ◌+◌, ◌-◌, ◌^◌, ℕ, [], Some, min, IfErr, IfOk, OnOk};
ghost use Rattle.raft_log_record_frames.specs.Meaning.{tagged_items};
ghost use Rattle.raft_log_block_cache.specs.declared.block_cache.BlockCache.{BlockCache};
ghost use Rattle.raft_log_engine_laws.specs.EngineState.{shows};
ghost use Rattle.raft_log_record_batches.specs.declared.log_batch.BatchState.TheVariants.{Filling, Populated};
ghost use Rattle.raft_log_record_batches.specs.Batch.{emptied, IsButBuffer, IsReadyForEach};
ghost use Rattle.raft_log_record_items.specs.declared.entry.EntryIndex.{EntryIndex};
ghost use Rattle.raft_log_memtables.specs.Rewriting.{MayMove, PromisesMoves};
ghost use Rattle.raft_log_memtables.specs.declared.mem_tables.MemTables.{MemTables};
ghost use Rattle.raft_log_memtables.specs.Tables.{IsAtRest};
ghost use Rattle.raft_log_purge_copy.specs.Copies.{FailsToCopy, MovesCopies, WritesCopies};
ghost use Rattle.raft_log_purge_copy.specs.Promised.{PromisesNoMoves};
ghost use Rattle.raft_log_purge_copy.specs.Syncing.{CountsCopies, TakesRecord};

use crate::syncing::sync_if_due;
use log::Log;
use raft_log_block_cache::SignedBatch;
use raft_log_dual_pipes::PipeLog;
use raft_log_memtables::MemTables;
use raft_log_record_base::{FileSeq, LogQueue, Result};
use raft_log_record_batches::LogBatch;
use std::alloc::Global;

/// Writes copies of items in Append, in files up to the gate, to Rewrite as one record; the tables locate them there.
/// Returns the batch, emptied. An empty batch isn't written. Syncs Rewrite first if 512 KiB or more are unsynced.
///
/// Fails with `Full` or `Memory` before the write, or as the sync or the write does. The tables show the same then.
pub fn write_copies<P: PipeLog, L: Log>(
    alloc: Global,
    rt: &L,
    pipes: &mut P,
    tables: &mut MemTables,
    batch: LogBatch,
    gate: FileSeq,
    unsynced: &mut u64,
) -> Result<LogBatch>
    requires { batch.state ≡ Filling }
    ensures ok { IfOk result (λ after. (cache : BlockCache) → WritesCopies (Some gate) batch
        (shows (P.shown pipes.old) tables.old cache) (shows (P.shown pipes.new) tables.new cache)) }
    ensures err { IfErr result (λ error. (cache : BlockCache) → FailsToCopy (Some gate) batch error
        (shows (P.shown pipes.old) tables.old cache) (shows (P.shown pipes.new) tables.new cache)) }
    ensures emptied { IfOk result (IsButBuffer (emptied batch)) }
    ensures counted { OnOk result (CountsCopies batch unsynced.old unsynced.new
        (P.shown pipes.old) (P.shown pipes.new)) }
    ensures rests { IsAtRest tables.old → IsAtRest tables.new }
    ensures moves { PromisesNoMoves tables.old → PromisesNoMoves tables.new }
{
    if batch.is_empty() {
        return Ok(batch);
    }
    sync_if_due(rt, pipes, unsynced)?;
    write_batch(alloc, rt, pipes, tables, batch, gate, unsynced)
}

/// Encodes the record of a batch that isn't empty, makes room for what it copies, and writes it.
fn write_batch<P: PipeLog, L: Log>(
    alloc: Global,
    rt: &L,
    pipes: &mut P,
    tables: &mut MemTables,
    batch: LogBatch,
    gate: FileSeq,
    unsynced: &mut u64,
) -> Result<LogBatch>
    requires filling { batch.state ≡ Filling }
    requires some { batch.items ≡ [] → ⊥ }
    ensures ok { IfOk result (λ after. (cache : BlockCache) → MovesCopies (Some gate) batch
        (shows (P.shown pipes.old) tables.old cache) (shows (P.shown pipes.new) tables.new cache)) }
    ensures err { IfErr result (λ error. (cache : BlockCache) → FailsToCopy (Some gate) batch error
        (shows (P.shown pipes.old) tables.old cache) (shows (P.shown pipes.new) tables.new cache)) }
    ensures emptied { IfOk result (IsButBuffer (emptied batch)) }
    ensures counted { OnOk result ((len : ℕ) × IsReadyForEach len batch.items batch.entries
        × (unsynced.new ≡ min (unsynced.old + len) (2 ^ 64 - 1))) }
    ensures there { OnOk result (TakesRecord batch (P.shown pipes.old) (P.shown pipes.new)) }
    ensures rests { IsAtRest tables.old → IsAtRest tables.new }
    ensures moves { PromisesNoMoves tables.old → PromisesNoMoves tables.new }
{
    let mut batch = batch;
    let len = batch.finish_populate()?;
    tables.prepare_rewrite(batch.items())?;
    *unsynced = unsynced.saturating_add(len as u64);
    append_copies(alloc, rt, pipes, tables, batch, gate)
}

/// Writes a batch after room was made for it. The tables locate its items in Rewrite then.
fn append_copies<P: PipeLog, L: Log>(
    alloc: Global,
    rt: &L,
    pipes: &mut P,
    tables: &mut MemTables,
    batch: LogBatch,
    gate: FileSeq,
) -> Result<LogBatch>
    requires made { batch.state ≡ Populated }
    requires some { batch.items ≡ [] → ⊥ }
    requires room { MayMove tables.old (tagged_items (λ e. e) batch.items) }
    ensures ok { IfOk result (λ after. (cache : BlockCache) → MovesCopies (Some gate) batch
        (shows (P.shown pipes.old) tables.old cache) (shows (P.shown pipes.new) tables.new cache)) }
    ensures err { IfErr result (λ error. (cache : BlockCache) → FailsToCopy (Some gate) batch error
        (shows (P.shown pipes.old) tables.old cache) (shows (P.shown pipes.new) tables.new cache)) }
    ensures emptied { IfOk result (λ after. after ≡ emptied batch) }
    ensures there { OnOk result (TakesRecord batch (P.shown pipes.old) (P.shown pipes.new)) }
    ensures rests { IsAtRest tables.old → IsAtRest tables.new }
    ensures used { (before : MemTables) → PromisesNoMoves before
        → PromisesMoves before tables.old (tagged_items {E = EntryIndex} (λ e. e) batch.items)
        → PromisesNoMoves tables.new }
{
    let mut signed = SignedBatch::new(batch);
    signed.encoded_len();
    let appended = pipes.append(alloc, rt, LogQueue::Rewrite, &mut signed);
    let mut batch = signed.into_batch();
    match appended {
        Ok(block) => {
            batch.finish_write(block);
            tables.apply_rewrite_writes(batch.items(), Some(gate), block.id.seq);
            batch.clear();
            Ok(batch)
        }
        Err(error) => {
            tables.take_back(batch.items());
            Err(error)
        }
    }
}
