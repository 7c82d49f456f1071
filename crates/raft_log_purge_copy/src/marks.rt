//! Writes owed tombstones to Rewrite. They are owed until Rewrite was synced.

ghost use Rattle.std.specs.Prelude.{◌≡◌, ◌∷◌, [], IfErr, IfOk, OnErr, OnOk};
ghost use Rattle.raft_log_record_frames.specs.Meaning.{tagged_items};
ghost use Rattle.raft_log_engine_laws.specs.EngineState.{shows};
ghost use Rattle.raft_log_block_cache.specs.declared.block_cache.BlockCache.{BlockCache};
ghost use Rattle.raft_log_record_batches.specs.declared.log_batch.BatchState.TheVariants.{Filling};
ghost use Rattle.raft_log_memtables.specs.Owing.{AreOwed};
ghost use Rattle.raft_log_memtables.specs.Tables.{IsAtRest};
ghost use Rattle.raft_log_purge_copy.specs.Marks.{CarriesMarks, ItemsAreRefused, WritesItems};
ghost use Rattle.raft_log_purge_copy.specs.Owed.{AddsNoMarks, AddsSame, SaysSame};
ghost use Rattle.raft_log_purge_copy.specs.Parts.{PartIsRefused};
ghost use Rattle.raft_log_purge_copy.specs.Refusals.{AreUnmarked};

use crate::record::record_of;
use log::Log;
use raft_log_dual_pipes::PipeLog;
use raft_log_memtables::MemTables;
use raft_log_record_base::{Error, LogQueue, Result};
use raft_log_record_batches::LogBatch;
use raft_log_record_items::{LogItem, LogItemContent, OpType};
use std::alloc::Global;

/// Writes the owed tombstones to Rewrite as one record, and syncs it; then they are no longer owed. If none is owed,
/// only syncs Rewrite.
///
/// Fails with `Memory` or `Full` before the write, or as the write or the sync does. If it fails, the tables still
/// owe them. After `Failed` the engine has failed.
pub fn rewrite_marks<P: PipeLog, L: Log>(
    alloc: Global,
    rt: &L,
    pipes: &mut P,
    tables: &mut MemTables,
) -> Result<()>
    ensures ok { OnOk result ((cache : BlockCache) → CarriesMarks
        (shows (P.shown pipes.old) tables.old cache) (shows (P.shown pipes.new) tables.new cache)) }
    ensures err { IfErr result (λ error. (cache : BlockCache) → PartIsRefused error
        (shows (P.shown pipes.old) tables.old cache) (shows (P.shown pipes.new) tables.new cache)) }
    ensures owed { OnErr result (tables.new ≡ tables.old) }
    ensures rests { IsAtRest tables.old → IsAtRest tables.new }
    ensures owes { AddsNoMarks tables.old tables.new }
{
    let marks = tables.pending_tombstones()?;
    write_tombstones(alloc, rt, pipes, tables, marks.as_slice())
}

/// Writes these tombstones to Rewrite, as `rewrite_marks` does. They must be all that the tables owe.
///
/// Fails as `rewrite_marks` does.
pub fn write_tombstones<P: PipeLog, L: Log>(
    alloc: Global,
    rt: &L,
    pipes: &mut P,
    tables: &mut MemTables,
    marks: &[LogItem],
) -> Result<()>
    requires { AreOwed tables.old marks.now }
    ensures ok { OnOk result ((cache : BlockCache) → CarriesMarks
        (shows (P.shown pipes.old) tables.old cache) (shows (P.shown pipes.new) tables.new cache)) }
    ensures err { IfErr result (λ error. (cache : BlockCache) → PartIsRefused error
        (shows (P.shown pipes.old) tables.old cache) (shows (P.shown pipes.new) tables.new cache)) }
    ensures owed { OnErr result (tables.new ≡ tables.old) }
    ensures rests { IsAtRest tables.old → IsAtRest tables.new }
    ensures owes { AddsNoMarks tables.old tables.new }
{
    write_marks(alloc, rt, pipes, marks)?;
    pipes.sync(rt, LogQueue::Rewrite)?;
    tables.clear_marks();
    Ok(())
}

/// Writes owed tombstones, if there are any.
fn write_marks<P: PipeLog, L: Log>(
    alloc: Global,
    rt: &L,
    pipes: &mut P,
    marks: &[LogItem],
) -> Result<()>
    ensures ok { OnOk result (WritesItems marks.now (P.shown pipes.old) (P.shown pipes.new)) }
    ensures err { IfErr result (λ error.
        ItemsAreRefused marks.now error (P.shown pipes.old) (P.shown pipes.new)) }
{
    let batch = marks_batch(alloc, marks)?;
    if batch.is_empty() {
        return Ok(());
    }
    let mut signed = record_of(batch)?;
    pipes.append(alloc, rt, LogQueue::Rewrite, &mut signed)?;
    Ok(())
}

/// A batch of these tombstones. Fails with `Memory`, or with `InvalidArgument` if an item is no tombstone.
fn marks_batch(alloc: Global, marks: &[LogItem]) -> Result<LogBatch>
    ensures ok { IfOk result (SaysSame marks.now) }
    ensures bare { IfOk result (λ batch. batch.entries ≡ []) }
    ensures errors { IfErr result (λ error. AreUnmarked marks.now error) }
{
    let mut batch = LogBatch::with_capacity(alloc, marks.len())?;
    add_marks(alloc, &mut batch, marks)?;
    Ok(batch)
}

fn add_marks(alloc: Global, batch: &mut LogBatch, items: &[LogItem]) -> Result<()>
    requires state { batch.old.state ≡ Filling }
    requires none { batch.old.items ≡ [] }
    ensures ok { OnOk result (SaysSame items.now batch.new) }
    ensures bare { OnOk result (batch.new.entries ≡ batch.old.entries) }
    ensures errors { IfErr result (λ error. AreUnmarked items.now error) }
{
    for item in items {
        add_mark(alloc, batch, item)?;
    }
    Ok(())
}

/// Adds a tombstone to a batch: a command, or the deletion of a key, which may be one of the log's own.
fn add_mark(alloc: Global, batch: &mut LogBatch, item: &LogItem) -> Result<()>
    requires { batch.old.state ≡ Filling }
    ensures ok { OnOk result (AddsSame batch.old batch.new item.now) }
    ensures errors { IfErr result (λ error. AreUnmarked (item.now ∷ []) error) }
{
    match &item.content {
        LogItemContent::Command(command) => {
            batch.add_command(item.raft_group_id, *command)?;
            Ok(())
        }
        LogItemContent::Kv(pair) => match pair.op_type {
            OpType::Del => {
                batch.delete_as_read(alloc, item.raft_group_id, pair.key.as_slice())?;
                Ok(())
            }
            OpType::Put => {
                Err(Error::InvalidArgument(format!(in alloc; "a key that is put is no mark")?))
            }
        },
        LogItemContent::EntryIndexes(_) => {
            Err(Error::InvalidArgument(format!(in alloc; "entries are no mark")?))
        }
    }
}
