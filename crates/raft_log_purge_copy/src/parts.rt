//! Restates a group as an atomic group: a record that begins it, those between, and a batch that ends it.

ghost use Rattle.std.specs.Prelude.{◌≡◌, ◌+◌, ◌≤◌, ◌<◌, ◌++◌, List, [], ◌∷◌, None, drop, length, take, IfErr, IfOk, OnOk};
ghost use Rattle.raft_log_record_batches.specs.AtomicGroup.{IsGroupOpen};
ghost use Rattle.raft_log_record_batches.specs.declared.log_batch.BatchState.TheVariants.{Filling};
ghost use Rattle.raft_log_purge_copy.specs.Pieces.{MakeOnePiece, piece_count};
ghost use Rattle.raft_log_purge_copy.specs.Lengths.{HasOnePiece};
ghost use Rattle.raft_log_purge_copy.specs.Records.{FailsToWriteRecord, WritesToRewrite};
ghost use Rattle.raft_log_purge_copy.specs.declared.parts.RestatedPart.{RestatedPart};
ghost use Rattle.raft_log_purge_copy.specs.Steps.{BeginsParts, FailsToBeginGroup, GivesUp, GivesUpLast};
ghost use Rattle.raft_log_purge_copy.specs.Steps.{GoesOnInGroup, MakesLast};
ghost use Rattle.raft_log_purge_copy.specs.Syncing.{HandsCountOn, WritesOne};

use crate::pieces::{piece_len, piece_of};
use crate::records::{WrittenRecord, write_record};
use log::Log;
use raft_log_block_cache::BlockCache;
use raft_log_dual_pipes::PipeLog;
use raft_log_record_base::{FileBlockHandle, Result};
use raft_log_record_batches::{AtomicGroupBuilder, LogBatch};
use raft_log_record_items::{Bytes, EntryIndex, LogItem};
use std::alloc::Global;

/// A part of an atomic group that was written: the place of its record, and its items there.
#[derive(Drop)]
pub struct RestatedPart {
    /// The place.
    pub block: FileBlockHandle,
    /// The items.
    pub items: Vec<LogItem>,
}

/// Begins an atomic group: its first part has the first `count` of the entries that a group has in Rewrite.
///
/// Fails as a read does, with `Full` or `Memory`, or as a write to Rewrite does. Then nothing of the group counts.
pub fn begin_parts<P: PipeLog, L: Log>(
    alloc: Global,
    rt: &L,
    pipes: &mut P,
    cache: &mut BlockCache,
    builder: &mut AtomicGroupBuilder,
    group: u64,
    entries: &[EntryIndex],
    count: usize,
    unsynced: &mut u64,
) -> Result<RestatedPart>
    requires few { count ≤ length entries.now }
    requires some { 0 < count }
    requires unbegun { builder.old.status ≡ None }
    ensures ok { IfOk result (λ part. BeginsParts group builder.old.id entries.now count part
        (P.shown pipes.old) cache.old (P.shown pipes.new) cache.new) }
    ensures err { IfErr result (λ error. FailsToBeginGroup group entries.now count error
        (P.shown pipes.old) cache.old (P.shown pipes.new) cache.new) }
    ensures begun { OnOk result (IsGroupOpen builder.new.status) }
    ensures same { OnOk result (builder.new.id ≡ builder.old.id) }
    ensures handed { count ≡ piece_count entries.now
        → OnOk result (HandsCountOn unsynced.old unsynced.new (P.shown pipes.old) (P.shown pipes.new)) }
{
    let none: Vec<(Bytes, Bytes)> = Vec::new(alloc);
    let mut batch = piece_of(
        alloc,
        pipes,
        cache,
        group,
        &entries[..count],
        none.as_slice(),
    )?;
    builder.begin(alloc, &mut batch)?;
    write_part(alloc, rt, pipes, batch, unsynced)
}

/// Continues an atomic group with parts that have the entries from `begin` on, except the last ones, which fit in one
/// record. Returns the position of the first of these. Adds the written parts to `parts`.
///
/// Fails as a read does, with `Full` or `Memory`, or as a write to Rewrite does. Then the atomic group is given up.
pub fn write_middles<P: PipeLog, L: Log>(
    alloc: Global,
    rt: &L,
    pipes: &mut P,
    cache: &mut BlockCache,
    builder: &mut AtomicGroupBuilder,
    group: u64,
    entries: &[EntryIndex],
    begin: usize,
    parts: &mut Vec<RestatedPart>,
    unsynced: &mut u64,
) -> Result<usize>
    requires within { begin < length entries.now }
    requires open { IsGroupOpen builder.old.status }
    ensures ok { IfOk result (λ done. GoesOnInGroup group builder.old.id entries.now begin done parts.old.items
        parts.new.items (P.shown pipes.old) cache.old (P.shown pipes.new) cache.new) }
    ensures err { IfErr result (λ error. GivesUp group builder.old.id entries.now begin parts.old.items error
        (P.shown pipes.old) cache.old (P.shown pipes.new) cache.new) }
    ensures left { IfOk result (λ done. done < length entries.now) }
    ensures last { IfOk result (λ done. MakeOnePiece (drop done entries.now)) }
    ensures open { OnOk result (IsGroupOpen builder.new.status) }
    ensures same { OnOk result (builder.new.id ≡ builder.old.id) }
    ensures handed { OnOk result (HandsCountOn unsynced.old unsynced.new (P.shown pipes.old) (P.shown pipes.new)) }
{
    let mut done = begin;
    let mut count = piece_len(&entries[done..]);
    while count < entries.len() - done {
        let part = write_middle(
            alloc, rt, pipes, cache, builder, group, entries, done, count, unsynced,
        )?;
        parts.push(part)?;
        done += count;
        count = piece_len(&entries[done..]);
    }
    Ok(done)
}

/// Continues an atomic group with a part that has `count` entries from `done` on. Fails as `write_middles` does.
fn write_middle<P: PipeLog, L: Log>(
    alloc: Global,
    rt: &L,
    pipes: &mut P,
    cache: &mut BlockCache,
    builder: &mut AtomicGroupBuilder,
    group: u64,
    entries: &[EntryIndex],
    done: usize,
    count: usize,
    unsynced: &mut u64,
) -> Result<RestatedPart>
    requires few { done + count ≤ length entries.now }
    requires some { 0 < count }
    requires piece { MakeOnePiece (take count (drop done entries.now)) }
    requires open { IsGroupOpen builder.old.status }
    ensures ok { (parts : List RestatedPart) → IfOk result (λ part. GoesOnInGroup group builder.old.id entries.now
        done (done + count) parts (parts ++ part ∷ []) (P.shown pipes.old) cache.old (P.shown pipes.new) cache.new) }
    ensures err { (parts : List RestatedPart) → IfErr result (λ error. GivesUp group builder.old.id entries.now
        done parts error (P.shown pipes.old) cache.old (P.shown pipes.new) cache.new) }
    ensures begun { OnOk result (IsGroupOpen builder.new.status) }
    ensures same { OnOk result (builder.new.id ≡ builder.old.id) }
    ensures handed { count ≡ piece_count (drop done entries.now)
        → OnOk result (HandsCountOn unsynced.old unsynced.new (P.shown pipes.old) (P.shown pipes.new)) }
{
    let none: Vec<(Bytes, Bytes)> = Vec::new(alloc);
    let mut batch = piece_of(
        alloc,
        pipes,
        cache,
        group,
        &entries[done..done + count],
        none.as_slice(),
    )?;
    builder.add(alloc, &mut batch)?;
    write_part(alloc, rt, pipes, batch, unsynced)
}

/// A batch that ends an atomic group: it has the entries from `done` on, and these keys with their values.
///
/// Fails if an entry can't be read, with `Full` or `Memory`, or with `InvalidArgument` if a value would be a mark of an
/// atomic group. Then the atomic group is given up.
pub fn last_batch<P: PipeLog>(
    alloc: Global,
    pipes: &P,
    cache: &mut BlockCache,
    builder: &mut AtomicGroupBuilder,
    group: u64,
    entries: &[EntryIndex],
    done: usize,
    pairs: &[(Bytes, Bytes)],
) -> Result<LogBatch>
    requires within { done < length entries.now }
    requires open { IsGroupOpen builder.old.status }
    ensures ok { (parts : List RestatedPart) → IfOk result (λ b. MakesLast group builder.old.id entries.now
        done parts pairs.now b (P.shown pipes.now) cache.old cache.new) }
    ensures err { (parts : List RestatedPart) → IfErr result (λ error. GivesUpLast group builder.old.id
        entries.now done parts pairs.now error (P.shown pipes.now) cache.old cache.new) }
    ensures filling { IfOk result (λ b. b.state ≡ Filling) }
    ensures piece { MakeOnePiece (drop done entries.now) → IfOk result HasOnePiece }
{
    let mut batch = piece_of(alloc, pipes, cache, group, &entries[done..], pairs)?;
    builder.end(alloc, &mut batch)?;
    Ok(batch)
}

/// Writes a part, and returns its items with their places.
fn write_part<P: PipeLog, L: Log>(
    alloc: Global,
    rt: &L,
    pipes: &mut P,
    batch: LogBatch,
    unsynced: &mut u64,
) -> Result<RestatedPart>
    requires { batch.state ≡ Filling }
    ensures ok { IfOk result (λ part. WritesToRewrite batch part.block part.items.items
        (P.shown pipes.old) (P.shown pipes.new)) }
    ensures err { IfErr result (λ error. FailsToWriteRecord batch error (P.shown pipes.old) (P.shown pipes.new)) }
    ensures counted { OnOk result (WritesOne batch unsynced.old unsynced.new (P.shown pipes.old) (P.shown pipes.new)) }
{
    let mut items = Vec::with_capacity(alloc, batch.len())?;
    let WrittenRecord { block, batch } = write_record(alloc, rt, pipes, batch, unsynced)?;
    let mut batch = batch;
    batch.drain(&mut items)?;
    Ok(RestatedPart { block, items })
}
