//! Writes the last record that restates a group, and then updates the tables. Nothing can fail after the write.

ghost use Rattle.std.specs.Prelude.{◌≡◌, ◌-◌, ◌++◌, ℕ, IfErr, IfOk, OnErr, OnOk};
ghost use Rattle.raft_log_record_batches.specs.declared.log_batch.BatchState.TheVariants.{Filling};
ghost use Rattle.raft_log_record_items.specs.declared.entry.EntryIndex.{EntryIndex};
ghost use Rattle.raft_log_record_frames.specs.Meaning.{tagged_items};
ghost use Rattle.raft_log_memtables.specs.Rewriting.{GroupsStay, PromisesMoves, entries_of};
ghost use Rattle.raft_log_memtables.specs.Tables.{IsAtRest, ShowsSame, promise_of};
ghost use Rattle.raft_log_purge_copy.specs.GroupParts.{items_of_all};
ghost use Rattle.raft_log_purge_copy.specs.Owed.{AddsNoMarks};
ghost use Rattle.raft_log_purge_copy.specs.Promised.{AreOfOne, LeavesNoMoves, PromisesNoMoves};
ghost use Rattle.raft_log_purge_copy.specs.Taking.{
  FailsToWriteLast,
  HaveRoom,
  TakesPartsAndItems,
  WritesLast,
  first_file_of,
};
ghost use Rattle.raft_log_purge_copy.specs.Syncing.{WritesOne};

use crate::parts::RestatedPart;
use crate::sync_if_due;
use log::Log;
use raft_log_block_cache::SignedBatch;
use raft_log_dual_pipes::PipeLog;
use raft_log_memtables::MemTables;
use raft_log_record_base::{FileBlockHandle, FileSeq, LogQueue, Result};
use raft_log_record_batches::LogBatch;
use raft_log_record_items::LogItem;
use std::alloc::{AllocError, Global};

/// Writes the last record that restates a group to Rewrite. The tables then locate what all of its records have there,
/// part after part. Returns the place of the last record.
///
/// Fails with `Full` or `Memory` before the write, or as the sync or the write does. The tables show the same then.
pub fn write_last<P: PipeLog, L: Log>(
    alloc: Global,
    rt: &L,
    pipes: &mut P,
    tables: &mut MemTables,
    parts: &[RestatedPart],
    batch: LogBatch,
    unsynced: &mut u64,
) -> Result<FileBlockHandle>
    requires { batch.state ≡ Filling }
    ensures ok { IfOk result (λ block. WritesLast parts.now batch block
        (P.shown pipes.old) tables.old (P.shown pipes.new) tables.new) }
    ensures err { IfErr result (λ error. FailsToWriteLast batch error
        (P.shown pipes.old) tables.old (P.shown pipes.new) tables.new) }
    ensures counted { OnOk result (WritesOne batch unsynced.old unsynced.new (P.shown pipes.old) (P.shown pipes.new)) }
    ensures moves { AreOfOne parts.now batch.items
        → LeavesNoMoves result (P.shown pipes.new) tables.old tables.new }
    ensures rests { IsAtRest tables.old → IsAtRest tables.new }
    ensures owes { AddsNoMarks tables.old tables.new }
{
    let mut batch = batch;
    let len = batch.finish_populate()?;
    make_room(tables, parts, batch.items())?;
    sync_if_due(rt, pipes, unsynced)?;
    let mut signed = SignedBatch::new(batch);
    signed.encoded_len();
    let appended = pipes.append(alloc, rt, LogQueue::Rewrite, &mut signed);
    let mut batch = signed.into_batch();
    match appended {
        Ok(block) => {
            batch.finish_write(block);
            take_items(tables, parts, batch.items(), block);
            *unsynced = unsynced.saturating_add(len as u64);
            Ok(block)
        }
        Err(error) => {
            tables.take_back(batch.items());
            Err(error)
        }
    }
}

/// The file of the first of the parts, or `last` if there is none.
pub fn first_file(parts: &[RestatedPart], last: FileSeq) -> FileSeq
    ensures { result ≡ first_file_of parts.now last }
{
    if parts.is_empty() {
        last
    } else {
        parts[0].block.id.seq
    }
}

/// Makes room for what the parts move, and these items after them. What the tables show is unchanged.
fn make_room(
    tables: &mut MemTables,
    parts: &[RestatedPart],
    items: &[LogItem],
) -> Result<(), AllocError>
    ensures shows { ShowsSame tables.old tables.new }
    ensures ok { OnOk result (HaveRoom tables.new parts.now items.now) }
    ensures stay { OnOk result (GroupsStay tables.old tables.new) }
    ensures asked { OnOk result (PromisesMoves tables.old tables.new
        (tagged_items {E = EntryIndex} (λ e. e) (items_of_all parts.now ++ items.now))) }
    ensures moves { OnErr result
        (AreOfOne parts.now items.now → PromisesNoMoves tables.old → PromisesNoMoves tables.new) }
    ensures rests { IsAtRest tables.old → IsAtRest tables.new }
{
    for part in parts {
        tables.prepare_rewrite(part.items.as_slice())?;
    }
    tables.prepare_rewrite(items)
}

/// Makes the tables locate what the parts have, part after part, and then the items of the batch at this place.
fn take_items(
    tables: &mut MemTables,
    parts: &[RestatedPart],
    items: &[LogItem],
    block: FileBlockHandle,
)
    requires { HaveRoom tables.old parts.now items.now }
    ensures took { TakesPartsAndItems parts.now items.now block tables.old tables.new }
    ensures spent { (g : ℕ) → (promise_of tables.new g).moves ≡ (promise_of tables.old g).moves
        - entries_of g (tagged_items {E = EntryIndex} (λ e. e) (items_of_all parts.now ++ items.now)) }
    ensures rests { IsAtRest tables.old → IsAtRest tables.new }
    ensures owes { AddsNoMarks tables.old tables.new }
{
    for part in parts {
        tables.apply_rewrite_writes(part.items.as_slice(), None, part.block.id.seq);
    }
    tables.apply_rewrite_writes(items, None, block.id.seq);
}
