//! Adds entries to a batch: their bytes follow those that it has.
ghost use Rattle.std.specs.Prelude.{◌≡◌, ◌+◌, ◌-◌, ◌≤◌, ◌<◌, ◌^◌, ◌++◌, ◌↔◌};
ghost use Rattle.std.specs.Prelude.{length, min, vec_capacity, IsTrue, IfOk, OnOk, OnErr, IfErr};
ghost use Rattle.raft_log_record_items.specs.Writing.{KeepsFront};
ghost use Rattle.raft_log_record_batches.specs.Entries.{RisesFrom, IsIndexRun, indexes_of, slices_bytes};
ghost use Rattle.raft_log_record_batches.specs.Entries.{laid_slices, joined, bytes_len, IsRunRefusal};

use super::{LogBatch, MAX_ENTRIES_LEN, make_room};
use raft_log_record_base::codec::or_cut_back;
use raft_log_record_items::{EntryIndex, EntryIndexes, Error, LogItem, Result};
use std::alloc::{AllocError, Global};

impl LogBatch {
    ghost use Rattle.std.specs.Prelude.{◌≡◌, ◌≤◌, OnOk, OnErr, IfErr};
    ghost use Rattle.raft_log_record_batches.specs.declared.log_batch.BatchState.TheVariants.{Filling};
    ghost use Rattle.raft_log_record_batches.specs.Batch.{Becomes};
    ghost use Rattle.raft_log_record_batches.specs.Places.{AddsBytes};
    ghost use Rattle.raft_log_record_batches.specs.Entries.{IsRunWith, indexes_of, slices_bytes, MayHold};
    ghost use Rattle.raft_log_record_batches.specs.Entries.{AddsSlices, IsSlicesRefusal};

    /// Adds entries of a group, each given by its index and its bytes, which are copied into the batch. Only the
    /// indexes in `entry_indexes` are used: the lengths are those of the bytes, and the places are set when the batch
    /// is written. No entries add nothing.
    ///
    /// Fails with `InvalidArgument` if there are not as many indexes as entries, if the indexes don't rise by one, or
    /// if one is 2^64 - 1. Else it fails with `Full` if the batch would have more than 2,147,483,647 bytes of entries.
    /// It may always fail with `Memory`. If it fails, no item changes. Whether it succeeds or fails, no capacity
    /// shrinks.
    pub fn add_raw_entries(
        &mut self,
        alloc: Global,
        raft_group_id: u64,
        entry_indexes: &[EntryIndex],
        entries: &[&[u8]],
    ) -> Result<()>
        requires { self.old.state ≡ Filling }
        ensures ok { OnOk result (AddsSlices self.old self.new raft_group_id entry_indexes.now entries.now) }
        ensures bytes { OnOk result (AddsBytes self.old self.new (slices_bytes entries.now)) }
        ensures run { OnOk result (IsRunWith (indexes_of entry_indexes.now) (slices_bytes entries.now)) }
        ensures room { OnOk result (MayHold self.old (slices_bytes entries.now)) }
        ensures err { OnErr result (Becomes self.old self.new) }
        ensures buffer { self.old.buffer ≤ self.new.buffer }
        ensures errors { IfErr result (λ e. IsSlicesRefusal e self.old entry_indexes.now entries.now) }
    {
        check_run(alloc, entry_indexes, entries.len())?;
        let added = bytes_len(entries);
        if added > (MAX_ENTRIES_LEN - self.entries_len) as u64 {
            return Err(Error::Full);
        }
        if entries.is_empty() {
            return Ok(());
        }
        self.items.reserve(1)?;
        make_room(&mut self.buf, added as usize)?;
        let placed = place_entries(alloc, entry_indexes, entries, self.entries_len as u32)?;
        append_entries(&mut self.buf, entries)?;
        self.items
            .push_reserved(LogItem::new_entry_indexes(raft_group_id, placed));
        self.entries_len += added as usize;
        Ok(())
    }
}

/// Whether the indexes rise by one, from this one on.
fn rises_from(entries: &[EntryIndex], first: u64) -> bool
    requires { first + length entries.now < 2 ^ 64 }
    ensures { IsTrue result ↔ RisesFrom first (indexes_of entries.now) }
{
    let mut next = first;
    for entry in entries {
        if entry.index != next {
            return false;
        }
        next += 1;
    }
    true
}

/// Whether the indexes rise by one, and none is 2^64 - 1.
fn is_run(entries: &[EntryIndex]) -> bool
    ensures { IsTrue result ↔ IsIndexRun (indexes_of entries.now) }
{
    match entries {
        [first, ..] => {
            entries.len() as u64 <= u64::MAX - first.index && rises_from(entries, first.index)
        }
        [] => true,
    }
}

/// Fails if there are not `count` indexes, if they don't rise by one, or if one is 2^64 - 1.
pub(super) fn check_run(alloc: Global, entries: &[EntryIndex], count: usize) -> Result<()>
    ensures ok { OnOk result (length entries.now ≡ count) }
    ensures run { OnOk result (IsIndexRun (indexes_of entries.now)) }
    ensures errors { IfErr result (λ e. IsRunRefusal e (indexes_of entries.now) count) }
{
    let indexes = entries.len();
    if indexes != count {
        return Err(Error::InvalidArgument(format!(in alloc;
            "{indexes} indexes for {count} entries"
        )?));
    }
    if !is_run(entries) {
        return Err(Error::InvalidArgument(format!(in alloc;
            "entry indexes that don't rise by one, or of which one is 18446744073709551615"
        )?));
    }
    Ok(())
}

/// The length of the entries in bytes, or 2^64 - 1 if they are longer.
fn bytes_len(entries: &[&[u8]]) -> u64
    ensures { result ≡ min (bytes_len (slices_bytes entries.now)) (2 ^ 64 - 1) }
{
    let mut len: u64 = 0;
    for entry in entries {
        len = len.saturating_add(entry.len() as u64);
    }
    len
}

/// Appends each entry's bytes. If it fails, a part may follow the old bytes.
fn append_each(out: &mut Vec<u8>, entries: &[&[u8]]) -> Result<(), AllocError>
    ensures ok { OnOk result (out.new.items ≡ out.old.items ++ joined (slices_bytes entries.now)) }
    ensures grows { vec_capacity out.old ≤ vec_capacity out.new }
    ensures err { OnErr result (KeepsFront out.old.items out.new.items) }
{
    for entry in entries {
        out.extend_from_slice(entry)?;
    }
    Ok(())
}

/// Appends each entry's bytes. If it fails, no byte changes.
fn append_entries(out: &mut Vec<u8>, entries: &[&[u8]]) -> Result<(), AllocError>
    ensures ok { OnOk result (out.new.items ≡ out.old.items ++ joined (slices_bytes entries.now)) }
    ensures grows { vec_capacity out.old ≤ vec_capacity out.new }
    ensures err { OnErr result (out.new.items ≡ out.old.items) }
{
    let start = out.len();
    or_cut_back(append_each(out, entries), out, start)
}

/// The entries with these indexes and bytes, laid out one after another from this offset on.
fn laid_entries(
    alloc: Global,
    indexes: &[EntryIndex],
    entries: &[&[u8]],
    offset: u32,
) -> Result<Vec<EntryIndex>, AllocError>
    requires same { length indexes.now ≡ length entries.now }
    requires fits { offset + bytes_len (slices_bytes entries.now) < 2 ^ 32 }
    ensures { IfOk result (λ run. run.items ≡ laid_slices offset indexes.now entries.now) }
{
    let mut laid = Vec::with_capacity(alloc, indexes.len())?;
    let mut next = offset;
    for i in 0..indexes.len() {
        let entry: &[u8] = entries[i];
        let mut index = EntryIndex::unplaced(indexes[i].index, entry.len() as u32);
        index.entry_offset = next;
        next += index.entry_len;
        laid.push_reserved(index);
    }
    Ok(laid)
}

/// The run of the entries with these indexes and bytes, laid out from this offset on.
fn place_entries(
    alloc: Global,
    indexes: &[EntryIndex],
    entries: &[&[u8]],
    offset: u32,
) -> Result<EntryIndexes, AllocError>
    requires same { length indexes.now ≡ length entries.now }
    requires run { IsIndexRun (indexes_of indexes.now) }
    requires fits { offset + bytes_len (slices_bytes entries.now) < 2 ^ 32 }
    ensures { IfOk result (λ run. run ≡ laid_slices offset indexes.now entries.now) }
{
    let laid = laid_entries(alloc, indexes, entries, offset)?;
    Ok(EntryIndexes::new(laid))
}
