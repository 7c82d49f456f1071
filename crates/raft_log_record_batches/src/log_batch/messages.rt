//! Adds messages to a batch as entries.
ghost use Rattle.std.specs.Prelude.{◌≡◌, ◌+◌, ◌≤◌, ◌<◌, ◌^◌, ◌++◌, length, map, IfOk, OnOk, OnErr, IfErr};
ghost use Rattle.raft_log_record_items.specs.Writing.{KeepsFront};
ghost use Rattle.raft_log_record_batches.specs.Batch.{max_entries_len};
ghost use Rattle.raft_log_record_batches.specs.Entries.{
  joined,
  sized,
  laid_messages,
  spelled_len,
  IsRunWith,
  AreReadBack,
  IsMessagesRefusal,
  DoesNotFit,
};

use super::entries::check_run;
use super::{LogBatch, MAX_ENTRIES_LEN, make_room};
use raft_log_record_base::codec::or_cut_back;
use raft_log_record_frames::LOG_BATCH_HEADER_LEN;
use raft_log_record_items::{
    EntryIndex, EntryIndexes, Error, LogItem, Message, MessageExt, Result,
};
use std::alloc::{AllocError, Global};

impl LogBatch {
    ghost use Rattle.std.specs.Prelude.{◌≡◌, map, OnOk, OnErr, IfErr};
    ghost use Rattle.raft_log_record_batches.specs.declared.log_batch.BatchState.TheVariants.{Filling};
    ghost use Rattle.raft_log_record_batches.specs.Batch.{Becomes};
    ghost use Rattle.raft_log_record_batches.specs.Places.{AddsBytes};
    ghost use Rattle.raft_log_record_batches.specs.Entries.{IsRunWith, AreReadBack, MayHold, AddsRun, FailsToAddEntries};

    /// Adds entries of a group, each with its index. No entries add nothing. Each entry that was added can be read
    /// back.
    ///
    /// Fails with `InvalidArgument` if the indexes don't rise by one, or if one is 2^64 - 1. Else it fails with `Full`
    /// if the batch would have more than 2,147,483,647 bytes of entries. It may always fail with `Memory`. If it fails,
    /// no item changes.
    pub fn add_entries<M: MessageExt>(
        &mut self,
        alloc: Global,
        raft_group_id: u64,
        entries: &[M::Entry],
    ) -> Result<()>
        requires { self.old.state ≡ Filling }
        ensures ok { OnOk result (AddsRun M.index M.Entry.spelling self.old self.new raft_group_id entries.now) }
        ensures bytes { OnOk result (AddsBytes self.old self.new (map M.Entry.spelling entries.now)) }
        ensures run { OnOk result (IsRunWith (map M.index entries.now) (map M.Entry.spelling entries.now)) }
        ensures again { OnOk result (AreReadBack M.Entry.spelling M.Entry.reading entries.now) }
        ensures room { OnOk result (MayHold self.old (map M.Entry.spelling entries.now)) }
        ensures err { OnErr result (Becomes self.old self.new) }
        ensures errors { IfErr result (λ e. FailsToAddEntries M.index M.Entry.spelling e self.old entries.now) }
    {
        let offset = self.entries_len as u32;
        if entries.is_empty() {
            return Ok(());
        }
        self.items.reserve(1)?;
        make_room(&mut self.buf, 0)?;
        let start = self.buf.len();
        let placed = append_run::<M>(alloc, &mut self.buf, entries, offset)?;
        self.items
            .push_reserved(LogItem::new_entry_indexes(raft_group_id, placed));
        self.entries_len += self.buf.len() - start;
        Ok(())
    }
}

/// Entries with the indexes of these, without lengths.
fn indexes_of<M: MessageExt>(
    alloc: Global,
    entries: &[M::Entry],
) -> Result<Vec<EntryIndex>, AllocError>
    ensures { IfOk result (λ indexes. map (λ e. e.index) indexes.items ≡ map M.index entries.now) }
{
    let mut indexes = Vec::with_capacity(alloc, entries.len())?;
    for entry in entries {
        indexes.push(EntryIndex::unplaced(M::index(entry), 0))?;
    }
    Ok(indexes)
}

/// Appends the bytes of each message, and sets each entry's length. Fails with `Full` if the buffer would have more
/// bytes than the limit. If it fails, a part may follow the old bytes.
fn append_each<M: Message>(
    out: &mut Vec<u8>,
    indexes: &mut [EntryIndex],
    messages: &[M],
    most: usize,
) -> Result<()>
    requires same { length indexes.old ≡ length messages.now }
    requires start { length out.old.items ≤ most }
    requires fits { most < 2 ^ 32 }
    ensures ok { OnOk result (out.new.items ≡ out.old.items ++ joined (map M.spelling messages.now)) }
    ensures sized { OnOk result (indexes.new ≡ sized M.spelling indexes.old messages.now) }
    ensures again { OnOk result (AreReadBack M.spelling M.reading messages.now) }
    ensures room { OnOk result (length out.old.items + spelled_len M.spelling messages.now ≤ most) }
    ensures err { OnErr result (KeepsFront out.old.items out.new.items) }
    ensures errors { IfErr result (λ e. DoesNotFit M.spelling e most out.old.items messages.now) }
{
    for i in 0..messages.len() {
        let start = out.len();
        messages[i].write(out)?;
        if out.len() > most {
            return Err(Error::Full);
        }
        indexes[i] = EntryIndex::unplaced(indexes[i].index, (out.len() - start) as u32);
    }
    Ok(())
}

/// Appends the bytes of these messages. Returns the entries with their indexes and lengths, laid out from this offset
/// on. Fails if the indexes are no run, or else if the batch would have too many bytes. If it fails, nothing changes.
fn append_run<M: MessageExt>(
    alloc: Global,
    out: &mut Vec<u8>,
    entries: &[M::Entry],
    offset: u32,
) -> Result<EntryIndexes>
    requires start { length out.old.items ≡ 16 + offset }
    requires small { offset ≤ max_entries_len }
    ensures placed { IfOk result (λ run. run ≡ laid_messages M.index M.Entry.spelling offset entries.now) }
    ensures bytes { OnOk result (out.new.items ≡ out.old.items ++ joined (map M.Entry.spelling entries.now)) }
    ensures run { OnOk result (IsRunWith (map M.index entries.now) (map M.Entry.spelling entries.now)) }
    ensures again { OnOk result (AreReadBack M.Entry.spelling M.Entry.reading entries.now) }
    ensures room { OnOk result (offset + spelled_len M.Entry.spelling entries.now ≤ max_entries_len) }
    ensures err { OnErr result (out.new.items ≡ out.old.items) }
    ensures errors { IfErr result (λ e. IsMessagesRefusal M.index M.Entry.spelling e offset entries.now) }
{
    let mut indexes = indexes_of::<M>(alloc, entries)?;
    check_run(alloc, indexes.as_slice(), entries.len())?;
    let start = out.len();
    let most = LOG_BATCH_HEADER_LEN + MAX_ENTRIES_LEN;
    or_cut_back(
        append_each(out, indexes.as_mut_slice(), entries, most),
        out,
        start,
    )?;
    let mut placed = EntryIndexes::new(indexes);
    placed.lay_out(offset);
    Ok(placed)
}
