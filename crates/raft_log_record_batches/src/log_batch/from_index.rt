//! Adds entries to a batch that write their own bytes, given the index of the first one.
ghost use Rattle.std.specs.Prelude.{◌≡◌, ◌+◌, ◌≤◌, ◌<◌, ◌^◌, ◌++◌, length, vec_capacity, IfOk, OnOk, OnErr, IfErr};
ghost use Rattle.raft_log_record_items.specs.Writing.{KeepsFront};
ghost use Rattle.raft_log_record_batches.specs.Batch.{max_entries_len};
ghost use Rattle.raft_log_record_batches.specs.Entries.{IsIndexRun, IsRoomRefusal, IsRunRefusal, bytes_len, joined};
ghost use Rattle.raft_log_record_batches.specs.EntriesFrom.{IsRefusalFrom, entries_at, indexes_at, indexes_from, laid_from_index};

use super::{LogBatch, MAX_ENTRIES_LEN, make_room};
use crate::entry_writer::EntryWriter;
use raft_log_record_base::codec::or_cut_back;
use raft_log_record_frames::LOG_BATCH_HEADER_LEN;
use raft_log_record_items::{EntryIndex, EntryIndexes, Error, LogItem, Result};
use std::alloc::Global;

impl LogBatch {
    ghost use Rattle.std.specs.Prelude.{◌≡◌, OnOk, OnErr, IfErr};
    ghost use Rattle.raft_log_record_batches.specs.declared.log_batch.BatchState.TheVariants.{Filling};
    ghost use Rattle.raft_log_record_batches.specs.Batch.{Becomes};
    ghost use Rattle.raft_log_record_batches.specs.Places.{AddsBytes};
    ghost use Rattle.raft_log_record_batches.specs.Entries.{IsIndexRun, MayHold};
    ghost use Rattle.raft_log_record_batches.specs.EntriesFrom.{AddsFrom, FailsToAddFrom, indexes_at};

    /// Adds entries of a group that write their own bytes, the first with this index and each other one with the next.
    /// No entries add nothing.
    ///
    /// Fails with `InvalidArgument` if an index would be 2^64 - 1 or above. Else it fails with `Full` if the batch
    /// would have more than 2,147,483,647 bytes of entries. It may always fail with `Memory`. If it fails, no item
    /// changes.
    pub fn add_entries_from<E: EntryWriter>(
        &mut self,
        alloc: Global,
        raft_group_id: u64,
        first: u64,
        entries: &E,
    ) -> Result<()>
        requires { self.old.state ≡ Filling }
        ensures ok { OnOk result (AddsFrom self.old self.new raft_group_id first (E.texts entries.now)) }
        ensures bytes { OnOk result (AddsBytes self.old self.new (E.texts entries.now)) }
        ensures run { OnOk result (IsIndexRun (indexes_at first (E.texts entries.now))) }
        ensures room { OnOk result (MayHold self.old (E.texts entries.now)) }
        ensures err { OnErr result (Becomes self.old self.new) }
        ensures errors { IfErr result (λ e. FailsToAddFrom e self.old first (E.texts entries.now)) }
    {
        let offset = self.entries_len as u32;
        let count = entries.len();
        if count == 0 {
            return Ok(());
        }
        self.items.reserve(1)?;
        make_room(&mut self.buf, 0)?;
        let start = self.buf.len();
        let placed = append_run(alloc, &mut self.buf, first, entries, offset)?;
        self.items
            .push_reserved(LogItem::new_entry_indexes(raft_group_id, placed));
        self.entries_len += self.buf.len() - start;
        Ok(())
    }
}

/// Fails if one of `count` indexes, from this one on, is 2^64 - 1 or above.
fn check_last(alloc: Global, first: u64, count: usize) -> Result<()>
    ensures run { OnOk result (IsIndexRun (indexes_from first count)) }
    ensures errors { IfErr result (λ e. IsRunRefusal e (indexes_from first count) count) }
{
    if count as u64 <= u64::MAX - first {
        return Ok(());
    }
    Err(Error::InvalidArgument(format!(in alloc;
        "entry indexes that don't rise by one, or of which one is 18446744073709551615"
    )?))
}

/// Appends the bytes of each entry, and adds the entry with its index and its length, for which there must be room.
/// Fails with `Full` if the buffer would have more bytes than the limit. If it fails, a part may follow the old bytes.
fn append_each<E: EntryWriter>(
    out: &mut Vec<u8>,
    placed: &mut Vec<EntryIndex>,
    first: u64,
    entries: &E,
    most: usize,
) -> Result<()>
    requires none { length placed.old.items ≡ 0 }
    requires reserved { vec_capacity placed.old ≡ length (E.texts entries.now) }
    requires run { IsIndexRun (indexes_at first (E.texts entries.now)) }
    requires start { length out.old.items ≤ most }
    requires fits { most < 2 ^ 32 }
    ensures ok { OnOk result (out.new.items ≡ out.old.items ++ joined (E.texts entries.now)) }
    ensures placed { OnOk result (placed.new.items ≡ entries_at first (E.texts entries.now)) }
    ensures room { OnOk result (length out.old.items + bytes_len (E.texts entries.now) ≤ most) }
    ensures err { OnErr result (KeepsFront out.old.items out.new.items) }
    ensures errors { IfErr result (λ e.
        IsRoomRefusal e most (length out.old.items + bytes_len (E.texts entries.now))) }
{
    for place in 0..entries.len() {
        let start = out.len();
        entries.append(place, out)?;
        if out.len() > most {
            return Err(Error::Full);
        }
        placed.push_reserved(EntryIndex::unplaced(
            first + place as u64,
            (out.len() - start) as u32,
        ));
    }
    Ok(())
}

/// Appends the bytes of these entries. Returns them with their lengths and with their indexes, from this one on, laid
/// out from this offset on. Fails if the indexes are no run, or else if the batch would have too many bytes. If it
/// fails, nothing changes.
fn append_run<E: EntryWriter>(
    alloc: Global,
    out: &mut Vec<u8>,
    first: u64,
    entries: &E,
    offset: u32,
) -> Result<EntryIndexes>
    requires start { length out.old.items ≡ 16 + offset }
    requires small { offset ≤ max_entries_len }
    ensures placed { IfOk result (λ run. run ≡ laid_from_index offset first (E.texts entries.now)) }
    ensures bytes { OnOk result (out.new.items ≡ out.old.items ++ joined (E.texts entries.now)) }
    ensures run { OnOk result (IsIndexRun (indexes_at first (E.texts entries.now))) }
    ensures room { OnOk result (offset + bytes_len (E.texts entries.now) ≤ max_entries_len) }
    ensures err { OnErr result (out.new.items ≡ out.old.items) }
    ensures errors { IfErr result (λ e. IsRefusalFrom e offset first (E.texts entries.now)) }
{
    let count = entries.len();
    check_last(alloc, first, count)?;
    let mut indexes = Vec::with_capacity(alloc, count)?;
    let start = out.len();
    let most = LOG_BATCH_HEADER_LEN + MAX_ENTRIES_LEN;
    or_cut_back(
        append_each(out, &mut indexes, first, entries, most),
        out,
        start,
    )?;
    let mut placed = EntryIndexes::new(indexes);
    placed.lay_out(offset);
    Ok(placed)
}
