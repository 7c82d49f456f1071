//! Restates groups: writes what each has in Rewrite there again, as one record or as an atomic group.

ghost use Rattle.std.specs.Prelude.{◌≡◌, ◌≤◌, ◌<◌, IfErr, IfOk, None, OnOk, length, take};
ghost use Rattle.raft_log_engine_laws.specs.EngineState.{shows};
ghost use Rattle.raft_log_record_batches.specs.declared.log_batch.BatchState.TheVariants.{Filling};
ghost use Rattle.raft_log_engine_laws.specs.raft_log_memtable.specs.Reads.{rewritten_entries};
ghost use Rattle.raft_log_memtables.specs.Tables.{IsAtRest, shown_of};
ghost use Rattle.raft_log_purge_copy.specs.Owed.{AddsNoMarks};
ghost use Rattle.raft_log_purge_copy.specs.Pieces.{MakeOnePiece, piece_count};
ghost use Rattle.raft_log_purge_copy.specs.Promised.{AreOfOne, LeavesNoMoves};
ghost use Rattle.raft_log_purge_copy.specs.Restated.{FailsToRestate, RestatesEach, RestatesOne, StopsRestating};
ghost use Rattle.raft_log_purge_copy.specs.Syncing.{CountsEach, HandsCountOn, WritesOne};
ghost use Rattle.raft_log_purge_copy.specs.Taking.{
  EndsParts,
  FailsToEnd,
  FailsToRestateThese,
  RestatesThese,
};

use crate::parts::{RestatedPart, begin_parts, last_batch, write_middles};
use crate::pieces::{piece_len, piece_of, rewritten_entries, rewritten_keys};
use crate::taking::{first_file, write_last};
use log::Log;
use raft_log_block_cache::BlockCache;
use raft_log_dual_pipes::PipeLog;
use raft_log_memtable_index::GroupFiles;
use raft_log_memtables::MemTables;
use raft_log_record_base::Result;
use raft_log_record_batches::{AtomicGroupBuilder, LogBatch};
use raft_log_record_items::{Bytes, EntryIndex};
use std::alloc::Global;

/// Restates groups, one after another. All that each has in Rewrite is then in the file that was active before the
/// call, or in later ones. `number` is the number of the next atomic group, and is counted up.
///
/// Fails as `restate_group` does. Then some of the groups may be restated.
pub fn compact_rewrite_groups<P: PipeLog, L: Log>(
    alloc: Global,
    rt: &L,
    pipes: &mut P,
    tables: &mut MemTables,
    cache: &mut BlockCache,
    groups: &[u64],
    number: &mut u64,
) -> Result<()>
    ensures ok { OnOk result (RestatesEach groups.now
        (shows (P.shown pipes.old) tables.old cache.old) (shows (P.shown pipes.new) tables.new cache.new)) }
    ensures err { IfErr result (λ error. StopsRestating groups.now error
        (shows (P.shown pipes.old) tables.old cache.old) (shows (P.shown pipes.new) tables.new cache.new)) }
    ensures rests { IsAtRest tables.old → IsAtRest tables.new }
    ensures owes { AddsNoMarks tables.old tables.new }
    ensures moves { LeavesNoMoves result (P.shown pipes.new) tables.old tables.new }
    ensures handed { OnOk result (CountsEach (P.shown pipes.old) (P.shown pipes.new)) }
    ensures counted { number.old ≤ number.new }
{
    let mut unsynced = 0;
    for group in groups {
        restate_group(
            alloc,
            rt,
            pipes,
            tables,
            cache,
            *group,
            number,
            &mut unsynced,
        )?;
    }
    Ok(())
}

/// Restates a group: writes all that it has in Rewrite there again, as one record or as an atomic group with this
/// number. The number is counted up if it was used. If the group has nothing there, writes nothing.
///
/// Fails:
/// - if an entry can't be read
/// - with `Full` or `Memory`
/// - with `InvalidArgument` if a value would be a mark of an atomic group
/// - as a write to Rewrite does
///
/// If it fails, what the tables show is unchanged.
pub fn restate_group<P: PipeLog, L: Log>(
    alloc: Global,
    rt: &L,
    pipes: &mut P,
    tables: &mut MemTables,
    cache: &mut BlockCache,
    group: u64,
    number: &mut u64,
    unsynced: &mut u64,
) -> Result<()>
    ensures ok { OnOk result (RestatesOne group
        (shows (P.shown pipes.old) tables.old cache.old) (shows (P.shown pipes.new) tables.new cache.new)) }
    ensures err { IfErr result (λ error. FailsToRestate error
        (shows (P.shown pipes.old) tables.old cache.old) (shows (P.shown pipes.new) tables.new cache.new)) }
    ensures rests { IsAtRest tables.old → IsAtRest tables.new }
    ensures owes { AddsNoMarks tables.old tables.new }
    ensures moves { LeavesNoMoves result (P.shown pipes.new) tables.old tables.new }
    ensures handed { OnOk result (HandsCountOn unsynced.old unsynced.new (P.shown pipes.old) (P.shown pipes.new)) }
    ensures counted { number.old ≤ number.new }
{
    let entries = rewritten_entries(alloc, tables, group)?;
    let pairs = rewritten_keys(alloc, tables, group)?;
    let es = entries.as_slice();
    let keys = pairs.as_slice();
    let count = piece_len(es);
    if count == es.len() {
        return restate_at_once(alloc, rt, pipes, tables, cache, group, es, keys, unsynced);
    }
    let mut builder = AtomicGroupBuilder::with_id(*number);
    *number = number.saturating_add(1);
    restate_in_parts(
        alloc,
        rt,
        pipes,
        tables,
        cache,
        &mut builder,
        group,
        es,
        keys,
        count,
        unsynced,
    )
}

/// Restates a group with these entries and keys in Rewrite by one record, if there are any. The entries must fit in it.
fn restate_at_once<P: PipeLog, L: Log>(
    alloc: Global,
    rt: &L,
    pipes: &mut P,
    tables: &mut MemTables,
    cache: &mut BlockCache,
    group: u64,
    entries: &[EntryIndex],
    pairs: &[(Bytes, Bytes)],
    unsynced: &mut u64,
) -> Result<()>
    requires { MakeOnePiece entries.now }
    ensures ok { OnOk result (RestatesThese group entries.now pairs.now
        (shows (P.shown pipes.old) tables.old cache.old) (shows (P.shown pipes.new) tables.new cache.new)) }
    ensures err { IfErr result (λ error. FailsToRestateThese group entries.now pairs.now error
        (shows (P.shown pipes.old) tables.old cache.old) (shows (P.shown pipes.new) tables.new cache.new)) }
    ensures rests { IsAtRest tables.old → IsAtRest tables.new }
    ensures owes { AddsNoMarks tables.old tables.new }
    ensures moves { LeavesNoMoves result (P.shown pipes.new) tables.old tables.new }
    ensures handed { OnOk result (HandsCountOn unsynced.old unsynced.new (P.shown pipes.old) (P.shown pipes.new)) }
{
    let batch = piece_of(alloc, pipes, cache, group, entries, pairs)?;
    if batch.is_empty() {
        return Ok(());
    }
    let none: Vec<RestatedPart> = Vec::new(alloc);
    write_last(alloc, rt, pipes, tables, none.as_slice(), batch, unsynced)?;
    Ok(())
}

/// Restates a group with these entries and keys in Rewrite by an atomic group, whose first part has `count` entries.
fn restate_in_parts<P: PipeLog, L: Log>(
    alloc: Global,
    rt: &L,
    pipes: &mut P,
    tables: &mut MemTables,
    cache: &mut BlockCache,
    builder: &mut AtomicGroupBuilder,
    group: u64,
    entries: &[EntryIndex],
    pairs: &[(Bytes, Bytes)],
    count: usize,
    unsynced: &mut u64,
) -> Result<()>
    requires some { 0 < count }
    requires few { count < length entries.now }
    requires piece { MakeOnePiece (take count entries.now) }
    requires unbegun { builder.old.status ≡ None }
    ensures ok { OnOk result (RestatesThese group entries.now pairs.now
        (shows (P.shown pipes.old) tables.old cache.old) (shows (P.shown pipes.new) tables.new cache.new)) }
    ensures err { IfErr result (λ error. FailsToRestateThese group entries.now pairs.now error
        (shows (P.shown pipes.old) tables.old cache.old) (shows (P.shown pipes.new) tables.new cache.new)) }
    ensures rests { IsAtRest tables.old → IsAtRest tables.new }
    ensures owes { AddsNoMarks tables.old tables.new }
    ensures moves { entries.now ≡ rewritten_entries (shown_of tables.old group)
        → LeavesNoMoves result (P.shown pipes.new) tables.old tables.new }
    ensures handed { count ≡ piece_count entries.now
        → OnOk result (HandsCountOn unsynced.old unsynced.new (P.shown pipes.old) (P.shown pipes.new)) }
{
    let mut parts = Vec::new(alloc);
    let first = begin_parts(
        alloc, rt, pipes, cache, builder, group, entries, count, unsynced,
    )?;
    parts.push(first)?;
    let done = write_middles(
        alloc, rt, pipes, cache, builder, group, entries, count, &mut parts, unsynced,
    )?;
    let batch = last_batch(alloc, pipes, cache, builder, group, entries, done, pairs)?;
    end_parts(
        alloc,
        rt,
        pipes,
        tables,
        group,
        parts.as_slice(),
        batch,
        unsynced,
    )
}

/// Ends an atomic group by its last record: the tables take its parts, one after another, and note its files. Fails as
/// `write_last` does; then the atomic group is given up.
fn end_parts<P: PipeLog, L: Log>(
    alloc: Global,
    rt: &L,
    pipes: &mut P,
    tables: &mut MemTables,
    group: u64,
    parts: &[RestatedPart],
    batch: LogBatch,
    unsynced: &mut u64,
) -> Result<()>
    requires { batch.state ≡ Filling }
    ensures ok { OnOk result (EndsParts group parts.now batch
        (P.shown pipes.old) tables.old (P.shown pipes.new) tables.new) }
    ensures err { IfErr result (λ error. FailsToEnd group parts.now batch error
        (P.shown pipes.old) tables.old (P.shown pipes.new) tables.new) }
    ensures rests { IsAtRest tables.old → IsAtRest tables.new }
    ensures owes { AddsNoMarks tables.old tables.new }
    ensures moves { AreOfOne parts.now batch.items
        → LeavesNoMoves result (P.shown pipes.new) tables.old tables.new }
    ensures counted { OnOk result (WritesOne batch unsynced.old unsynced.new (P.shown pipes.old) (P.shown pipes.new)) }
{
    let block = write_last(alloc, rt, pipes, tables, parts, batch, unsynced)?;
    let from = first_file(parts, block.id.seq);
    let to = block.id.seq;
    tables.note_group(group, GroupFiles { from, to });
    Ok(())
}
