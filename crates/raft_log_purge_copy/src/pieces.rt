//! What a group has in Rewrite, and batches of it.

ghost use Rattle.std.specs.Prelude.{◌≡◌, ◌≤◌, ◌<◌, [], length, map, take, IfErr, IfOk, OnOk};
ghost use Rattle.raft_log_memtable_index.specs.Listing.{ListsAll, rewritten_values};
ghost use Rattle.raft_log_record_batches.specs.declared.log_batch.BatchState.TheVariants.{Filling};
ghost use Rattle.raft_log_memtables.specs.Tables.{shown_of};
ghost use Rattle.raft_log_engine_laws.specs.raft_log_memtable.specs.Reads.{rewritten_entries};
ghost use Rattle.raft_log_purge_copy.specs.Refusals.{AreUnput};
ghost use Rattle.raft_log_purge_copy.specs.Pieces.{AddsKeys, BuildsPiece, FailsToBuildPiece, MakeOnePiece, piece_count};

use crate::entries::run_batch;
use raft_log_block_cache::BlockCache;
use raft_log_dual_pipes::PipeLog;
use raft_log_memtables::MemTables;
use raft_log_record_base::Result;
use raft_log_record_batches::LogBatch;
use raft_log_record_items::{Bytes, EntryIndex, RawMessage};
use std::alloc::{AllocError, Global};

/// How many bytes of entries are written at once, unless a single entry has more.
const MAX_PIECE_LEN: u64 = 131_072;

/// The entries that a group has in Rewrite.
pub fn rewritten_entries(
    alloc: Global,
    tables: &MemTables,
    group: u64,
) -> Result<Vec<EntryIndex>, AllocError>
    ensures { IfOk result (λ entries. entries.items ≡ rewritten_entries (shown_of tables.now group)) }
{
    let mut entries = Vec::new(alloc);
    if let Some(table) = tables.known_table(group) {
        table.fetch_rewritten_entry_indexes(&mut entries)?;
    }
    Ok(entries)
}

/// The keys that a group has in Rewrite, with their values.
pub fn rewritten_keys(
    alloc: Global,
    tables: &MemTables,
    group: u64,
) -> Result<Vec<(Bytes, Bytes)>, AllocError>
    ensures { IfOk result (λ pairs. ListsAll (rewritten_values (shown_of tables.now group)) pairs.items) }
{
    let mut pairs = Vec::new(alloc);
    if let Some(table) = tables.known_table(group) {
        table.fetch_rewritten_kvs(&mut pairs)?;
    }
    Ok(pairs)
}

/// How many of the first entries make one record: as many as have at most 128 KiB, or else one; 0 if there are none.
pub fn piece_len(entries: &[EntryIndex]) -> usize
    ensures few { result ≤ length entries.now }
    ensures piece { MakeOnePiece (take result entries.now) }
    ensures most { result ≡ piece_count entries.now }
    ensures some { 0 < length entries.now → 0 < result }
{
    let mut left = MAX_PIECE_LEN;
    for i in 0..entries.len() {
        let len = entries[i].entry_len as u64;
        if len > left {
            return if i == 0 { 1 } else { i };
        }
        left -= len;
    }
    entries.len()
}

/// A batch of the entries at these places, which it reads, and of keys of their group with their values.
///
/// Fails as a read does, with `Full` or `Memory`, or with `InvalidArgument` if a value would be an atomic group's mark.
pub fn piece_of<P: PipeLog>(
    alloc: Global,
    pipes: &P,
    cache: &mut BlockCache,
    group: u64,
    entries: &[EntryIndex],
    pairs: &[(Bytes, Bytes)],
) -> Result<LogBatch>
    ensures ok { IfOk result (λ b. BuildsPiece group entries.now pairs.now
        (P.shown pipes.now) cache.old cache.new b) }
    ensures err { IfErr result (λ error. FailsToBuildPiece group entries.now pairs.now
        (P.shown pipes.now) cache.old cache.new error) }
{
    let read: Vec<RawMessage> = cache.read_entries(alloc, pipes, entries)?;
    let mut batch = run_batch(alloc, group, entries, read.as_slice())?;
    add_keys(alloc, &mut batch, group, pairs)?;
    Ok(batch)
}

/// Adds keys of a group, with their values, as they were read: a key may be one of the log's own.
fn add_keys(alloc: Global, batch: &mut LogBatch, group: u64, pairs: &[(Bytes, Bytes)]) -> Result<()>
    requires { batch.old.state ≡ Filling }
    ensures ok { OnOk result (AddsKeys group pairs.now batch.old batch.new) }
    ensures errors { IfErr result (λ error. AreUnput group pairs.now error) }
{
    for pair in pairs {
        batch.put_as_read(alloc, group, pair.0.as_slice(), pair.1.as_slice())?;
    }
    Ok(())
}
