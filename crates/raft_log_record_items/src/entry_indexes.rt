//! Runs of entries of one group: their count, the first index, and the length of each.
ghost use Rattle.std.specs.Prelude.{◌≡◌, ◌+◌, ◌-◌, ◌<◌, ◌^◌, ◌++◌, [], length, map, min, vec_capacity, IfOk, OnOk, OnErr, IsTrue, ◌↔◌};
ghost use Rattle.raft_log_record_base.specs.Fault.{ReadsOrMemory, ReadsItemsOrMemory, DecodesOrMemory};
ghost use Rattle.raft_log_record_items.specs.Run.{IsRun, FollowsFrom, unplaced};
ghost use Rattle.raft_log_record_items.specs.Items.{IsEntries};
ghost use Rattle.raft_log_record_items.specs.Placed.{run_len, laid_run, written_entry};
ghost use Rattle.raft_log_record_items.specs.Reading.{entry_len_at, first_index_at, entries_from_at, entries_of_at, entries_at};
ghost use Rattle.raft_log_record_items.specs.Writing.{lengths_bytes, entries_bytes, KeepsFront};

use crate::entry::EntryIndex;
use raft_log_record_base::codec::{BytesSlice, append_var_u64, decode_var_u64, or_cut_back};
use raft_log_record_base::{Error, FileBlockHandle, Result};
use std::alloc::{AllocError, Global};
use std::marker::Model;

/// The greatest index of an entry.
pub const MAX_ENTRY_INDEX: u64 = u64::MAX - 1;

/// A run of entries of one group: each index is one above the index before it, and none is 2^64 - 1.
/// Contracts see it as the list of its entries.
#[derive(Clone, Debug, Drop)]
pub struct EntryIndexes {
    entries: Vec<EntryIndex>,
}

impl Model for EntryIndexes {
    ghost use Rattle.std.specs.Prelude.{List};
    ghost use Rattle.raft_log_record_items.specs.declared.entry.EntryIndex.{EntryIndex};
    ghost use Rattle.raft_log_record_items.specs.Run.{IsRun};

    ghost Value = { List EntryIndex };

    ghost view = { λ e. e.entries.items };

    ghost invariant = { λ e. IsRun e.entries.items };
}

impl PartialEq for EntryIndexes {
    ghost use Rattle.std.specs.Cmp.{partial_equiv_from_equiv};
    ghost use Rattle.std.specs.Cmp.Lexicographic.{pointwise, lists_equiv};
    ghost use Rattle.raft_log_record_items.specs.contracts.entry.EntryIndexEq.TheImpl.Laws.{laws-law};

    ghost eq = { pointwise ⟦<EntryIndex as PartialEq>⟧.eq };

    ghost laws = { partial_equiv_from_equiv (lists_equiv laws-law) };

    fn eq(&self, other: &EntryIndexes) -> bool {
        self.entries.as_slice() == other.entries.as_slice()
    }
}

impl Eq for EntryIndexes {
    ghost use Rattle.std.specs.Cmp.Lexicographic.{lists_equiv};
    ghost use Rattle.raft_log_record_items.specs.contracts.entry.EntryIndexEq.TheImpl.Laws.{laws-law};

    ghost laws = { lists_equiv laws-law };
}

impl EntryIndexes {
    /// A run of these entries, whose indexes must be consecutive and below 2^64 - 1. Nothing is copied.
    pub fn new(entries: Vec<EntryIndex>) -> Self
        requires { IsRun entries.items }
        ensures { result ≡ entries.items }
    {
        EntryIndexes { entries }
    }

    /// The entries.
    pub fn as_slice(&self) -> &[EntryIndex]
        ensures value { result.now ≡ self.now }
        ensures run { IsRun self.now }
    {
        self.entries.as_slice()
    }

    /// The number of entries.
    pub fn len(&self) -> usize
        ensures { result ≡ length self.now }
    {
        self.entries.len()
    }

    /// Whether there are no entries.
    pub fn is_empty(&self) -> bool
        ensures { IsTrue result ↔ (self.now ≡ []) }
    {
        self.entries.is_empty()
    }

    /// The length of all entries in bytes, or 2^64 - 1 if they are longer.
    pub fn bytes_len(&self) -> u64
        ensures { result ≡ min (run_len self.now) (2 ^ 64 - 1) }
    {
        let entries = self.as_slice();
        let mut len: u64 = 0;
        for entry in entries {
            len = len.saturating_add(entry.entry_len as u64);
        }
        len
    }

    /// Lays out the entries one after another from this offset in their block, and returns the offset of the next one.
    /// That offset must be below 2^32.
    pub fn lay_out(&mut self, offset: u32) -> u32
        requires { offset + run_len self.old < 2 ^ 32 }
        ensures laid { self.new ≡ laid_run offset self.old }
        ensures end { result ≡ offset + run_len self.old }
    {
        lay_out(self.entries.as_mut_slice(), offset)
    }

    /// Sets the entry block's place in each entry, once it is written.
    pub fn set_written(&mut self, handle: FileBlockHandle)
        ensures { self.new ≡ map (written_entry handle) self.old }
    {
        set_written(self.entries.as_mut_slice(), handle);
    }

    /// The entries as a vector; nothing is copied.
    pub fn into_vec(self) -> Vec<EntryIndex>
        ensures value { result.items ≡ self }
        ensures run { IsRun self }
    {
        let EntryIndexes { entries } = self;
        entries
    }

    /// Reads the entries of an item: their indexes and lengths. The item's bytes don't have their places.
    ///
    /// Fails with `Codec` if the bytes end early or a number doesn't fit 64 bits. Fails with `Corruption` for an index
    /// of 2^64 - 1 or more, or for a length of more than 32 bits. Fails with `Memory`. If it fails, it consumes
    /// nothing.
    pub fn decode(alloc: Global, source: &mut BytesSlice<'_>) -> Result<EntryIndexes>
        ensures decodes { DecodesOrMemory IsEntries result source.old.now source.new.now }
        ensures exact { ReadsOrMemory result source.old.now source.new.now (entries_at source.old.now) }
    {
        split_entry_indexes(alloc, source)
    }

    /// Appends the entries, each number in its shortest spelling. If it fails, the buffer's bytes are unchanged.
    pub fn encode(&self, out: &mut Vec<u8>) -> Result<(), AllocError>
        ensures ok { OnOk result (out.new.items ≡ out.old.items ++ entries_bytes self.now) }
        ensures err { OnErr result (out.new.items ≡ out.old.items) }
        ensures spelled { OnOk result (IsEntries (entries_bytes self.now) (map unplaced self.now)) }
    {
        let start = out.len();
        or_cut_back(append_entries(out, self.as_slice()), out, start)
    }
}

/// Lays out the entries one after another from this offset in their block, and returns the offset of the next one.
fn lay_out(entries: &mut [EntryIndex], offset: u32) -> u32
    requires { offset + run_len entries.old < 2 ^ 32 }
    ensures laid { entries.new ≡ laid_run offset entries.old }
    ensures end { result ≡ offset + run_len entries.old }
{
    let mut next = offset;
    for entry in entries.iter_mut() {
        entry.entry_offset = next;
        next += entry.entry_len;
    }
    next
}

/// Sets the entry block's place in each entry.
fn set_written(entries: &mut [EntryIndex], handle: FileBlockHandle)
    ensures { entries.new ≡ map (written_entry handle) entries.old }
{
    for entry in entries.iter_mut() {
        entry.entries = Some(handle);
    }
}

/// Reads the entries of an item.
#[tactic(auto, unfolding(crate::specs::Reading::entries_at))]
fn split_entry_indexes(alloc: Global, source: &mut BytesSlice<'_>) -> Result<EntryIndexes>
    ensures { ReadsOrMemory result source.old.now source.new.now (entries_at source.old.now) }
{
    let mut rest: &[u8] = *source;
    let count = decode_var_u64(&mut rest)?;
    let entries = split_counted_entries(alloc, &mut rest, count)?;
    *source = rest;
    Ok(entries)
}

/// Reads as many entries as the count says.
#[tactic(auto, unfolding(crate::specs::Reading::entries_of_at))]
fn split_counted_entries(
    alloc: Global,
    source: &mut BytesSlice<'_>,
    count: u64,
) -> Result<EntryIndexes>
    ensures { ReadsOrMemory result source.old.now source.new.now (entries_of_at count source.old.now) }
{
    if count == 0 {
        return Ok(EntryIndexes::new(Vec::new(alloc)));
    }
    let mut rest: &[u8] = *source;
    let first = split_first_index(alloc, &mut rest, count)?;
    let entries = split_entries(alloc, &mut rest, first, count)?;
    *source = rest;
    Ok(EntryIndexes::new(entries))
}

/// Reads the first of `count` indexes, the last of which must be below 2^64 - 1.
#[tactic(auto, unfolding(crate::specs::Reading::first_index_at))]
fn split_first_index(alloc: Global, source: &mut BytesSlice<'_>, count: u64) -> Result<u64>
    ensures read { ReadsOrMemory result source.old.now source.new.now (first_index_at count source.old.now) }
    ensures fits { IfOk result (λ first. first + count < 2 ^ 64) }
{
    let mut rest: &[u8] = *source;
    let first = decode_var_u64(&mut rest)?;
    if first.checked_add(count).is_none() {
        return Err(Error::Corruption(format!(in alloc; "Entry index past the limit")?));
    }
    *source = rest;
    Ok(first)
}

/// Reads `count` entries, from this index on.
fn split_entries(
    alloc: Global,
    source: &mut BytesSlice<'_>,
    first: u64,
    count: u64,
) -> Result<Vec<EntryIndex>>
    requires { first + count < 2 ^ 64 }
    ensures read { ReadsItemsOrMemory result source.old.now source.new.now
        (entries_from_at first count source.old.now) }
    ensures run { IfOk result (λ entries. FollowsFrom first entries.items × (length entries.items ≡ count)) }
{
    let mut rest: &[u8] = *source;
    let mut entries = room_for_entries(alloc, count, rest.len())?;
    for i in 0..count {
        let entry_len = split_entry_len(alloc, &mut rest)?;
        entries.push(EntryIndex::unplaced(first + i, entry_len))?;
    }
    *source = rest;
    Ok(entries)
}

/// Room for `count` entries, but for no more than `len` bytes can hold: each length takes at least one byte.
fn room_for_entries(alloc: Global, count: u64, len: usize) -> Result<Vec<EntryIndex>, AllocError>
    ensures empty { IfOk result (λ entries. entries.items ≡ []) }
    ensures room { IfOk result (λ entries. vec_capacity entries ≡ min count len) }
{
    let room = (len as u64).min(count);
    Vec::with_capacity(alloc, room as usize)
}

/// Reads the length of an entry.
#[tactic(auto, unfolding(crate::specs::Reading::entry_len_at))]
fn split_entry_len(alloc: Global, source: &mut BytesSlice<'_>) -> Result<u32>
    ensures { ReadsOrMemory result source.old.now source.new.now (entry_len_at source.old.now) }
{
    let mut rest: &[u8] = *source;
    let len = decode_var_u64(&mut rest)?;
    if len > u32::MAX as u64 {
        return Err(Error::Corruption(format!(in alloc; "Entry length past the limit")?));
    }
    *source = rest;
    Ok(len as u32)
}

/// Appends the entries of an item.
#[tactic(auto, unfolding(crate::specs::Writing::entries_bytes))]
fn append_entries(out: &mut Vec<u8>, entries: &[EntryIndex]) -> Result<(), AllocError>
    requires { IsRun entries.now }
    ensures ok { OnOk result (out.new.items ≡ out.old.items ++ entries_bytes entries.now) }
    ensures err { OnErr result (KeepsFront out.old.items out.new.items) }
    ensures spelled { OnOk result (IsEntries (entries_bytes entries.now) (map unplaced entries.now)) }
{
    append_var_u64(out, entries.len() as u64)?;
    if let [first, ..] = entries {
        append_var_u64(out, first.index)?;
        append_lengths(out, entries)?;
    }
    Ok(())
}

/// Appends the length of each entry.
fn append_lengths(out: &mut Vec<u8>, entries: &[EntryIndex]) -> Result<(), AllocError>
    ensures ok { OnOk result (out.new.items ≡ out.old.items ++ lengths_bytes entries.now) }
    ensures err { OnErr result (KeepsFront out.old.items out.new.items) }
{
    for entry in entries {
        append_var_u64(out, entry.entry_len as u64)?;
    }
    Ok(())
}
