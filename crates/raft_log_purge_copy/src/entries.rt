//! The next entries of Append that are to be copied, and a batch of them.

ghost use Rattle.std.specs.Prelude.{◌≡◌, map, nat_le, IfErr, IfOk};
ghost use Rattle.raft_log_record_base.specs.declared.errors.Error.TheVariants as errors;
ghost use Rattle.raft_log_extents.specs.Counts.{passing};
ghost use Rattle.raft_log_extents.specs.Entries.{place_of};
ghost use Rattle.raft_log_record_batches.specs.Entries.{IsEntriesRefusal, indexes_of, slices_bytes};
ghost use Rattle.raft_log_memtables.specs.Tables.{shown_of};
ghost use Rattle.raft_log_purge_copy.specs.Entries.{AreNext, IsRunBatch};

use raft_log_memtables::MemTables;
use raft_log_record_base::{FileSeq, Result};
use raft_log_record_batches::LogBatch;
use raft_log_record_items::{EntryIndex, RawMessage};
use std::alloc::{AllocError, Global};

/// How many bytes of entries are copied at once, unless a single entry has more.
const MAX_COPIED_LEN: u64 = 131_072;

/// The next entries of a group to copy: its first in Append, in files up to the gate, at most 128 KiB or one entry.
/// There are none if the group's first entry in Append is in a file after the gate. Fails only with `Memory`.
pub fn next_entries(
    alloc: Global,
    tables: &MemTables,
    group: u64,
    gate: FileSeq,
) -> Result<Vec<EntryIndex>>
    ensures ok { IfOk result (λ entries. AreNext gate (shown_of tables.now group) entries.items) }
    ensures errors { IfErr result (λ error. error ≡ errors.Memory) }
{
    let mut entries = Vec::new(alloc);
    if let Some(table) = tables.known_table(group) {
        let ends = table.span();
        let begin = ends.first + table.rewritten_count() as u64;
        table.fetch_entries_to(begin, ends.end, Some(MAX_COPIED_LEN), &mut entries)?;
        let count = count_up_to(entries.as_slice(), gate);
        entries.truncate(count);
    }
    Ok(entries)
}

/// How many of the entries, from the first on, are in files up to the gate.
fn count_up_to(entries: &[EntryIndex], gate: FileSeq) -> usize
    ensures { result ≡ passing gate (map place_of entries.now) }
{
    for i in 0..entries.len() {
        if !is_up_to(&entries[i], gate) {
            return i;
        }
    }
    entries.len()
}

/// Whether an entry is in a file up to the gate.
fn is_up_to(entry: &EntryIndex, gate: FileSeq) -> bool
    ensures { result ≡ nat_le (place_of entry.now).file gate }
{
    match entry.entries {
        Some(block) => block.id.seq <= gate,
        None => true,
    }
}

/// A batch of one run: a group's entries with these indexes and bytes.
///
/// Fails with `Full` if the entries have too many bytes, with `InvalidArgument` if they are no run, or with `Memory`.
pub fn run_batch(
    alloc: Global,
    group: u64,
    entries: &[EntryIndex],
    read: &[RawMessage],
) -> Result<LogBatch>
    ensures ok { IfOk result (IsRunBatch group (indexes_of entries.now) (map (λ e. e.bytes) read.now)) }
    ensures errors { IfErr result (λ error. IsEntriesRefusal error 0
        (indexes_of entries.now) (map (λ e. e.bytes) read.now)) }
{
    let mut batch = LogBatch::default(alloc)?;
    let slices = slices_of(alloc, read)?;
    batch.add_raw_entries(alloc, group, entries, slices.as_slice())?;
    Ok(batch)
}

fn slices_of<'a>(alloc: Global, read: &'a [RawMessage]) -> Result<Vec<&'a [u8]>, AllocError>
    ensures { IfOk result (λ slices. slices_bytes slices.items ≡ map (λ e. e.bytes) read.now) }
{
    let mut slices = Vec::with_capacity(alloc, read.len())?;
    for entry in read {
        slices.push(entry.bytes.as_slice())?;
    }
    Ok(slices)
}
