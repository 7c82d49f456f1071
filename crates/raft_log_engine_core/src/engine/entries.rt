//! Reads entries through their blocks; the last block is cached.

ghost use Rattle.std.specs.Prelude.{◌≡◌, ◌⊎◌, ◌+◌, ◌^◌, ◌<◌, ◌≤◌, length, take, vec_capacity, vec_len, IfErr, IfOk, OnErr, OnOk};
ghost use Rattle.raft_log_record_base.specs.declared.errors.Error.TheVariants as errors;
ghost use Rattle.raft_log_memtable.specs.Reads.{entry_at};
ghost use Rattle.raft_log_memtable.specs.Table.{shown};
ghost use Rattle.raft_log_memtables.specs.Tables.{shown_of};
ghost use Rattle.raft_log_block_cache.specs.Blocks.{AddsEntries, AreUnread};
ghost use Rattle.raft_log_purge.specs.raft_log_engine_laws.specs.Fetching.{FailsToFetch, FailsToTell, FetchesTo, HadFailed, IsEntryTold, TellsEntry};
ghost use Rattle.raft_log_engine_core.specs.ModelCalls.{FetchesMessages, FollowsModel, ModelReads};
ghost use Rattle.raft_log_engine_core.specs.Reads.{AreNext, HasFirst, IsToldAs, Runs, entries_on, shows_of, Lives};
ghost use Rattle.raft_log_engine_core.specs.Touching.{StaysPurged};

use super::LogEngine;
use raft_log_block_cache::BlockCache;
use raft_log_dual_pipes::PipeLog;
use raft_log_extents::Bounds;
use raft_log_memtable::MemTable;
use raft_log_record_base::{Error, FileBlockHandle, Result};
use raft_log_record_items::{EntryIndex, Message, MessageExt};
use std::alloc::Global;
use std::io::ErrorKind;

impl<P: PipeLog> LogEngine<P> {
    /// Returns the entry of a group at an index, if there is one.
    ///
    /// # Errors
    /// - `Failed` if the engine has failed.
    /// - `Io` if its block can't be read.
    /// - `Message` if its bytes aren't a message.
    /// - `Memory`; once the file system has stopped, the error is `Io(Other)` instead.
    /// - `Corruption` only if the block was damaged from outside. The contract excludes it for an engine that
    ///   `Represents` relates to a log.
    pub fn get_entry<M: MessageExt>(
        &mut self,
        raft_group_id: u64,
        log_idx: u64,
    ) -> Result<Option<M::Entry>>
        ensures model { FollowsModel (ModelReads (λ m. IsEntryTold M.Entry.reading m raft_group_id log_idx))
            result (shows_of P.shown self.old) (shows_of P.shown self.new) }
        ensures ok { IfOk result (TellsEntry M.Entry.reading raft_group_id log_idx
            (shows_of P.shown self.old)
            (shows_of P.shown self.new)) }
        ensures err { IfErr result (λ error.
            HadFailed (shows_of P.shown self.old)
            (shows_of P.shown self.new) error
            ⊎ FailsToTell M.Entry.reading raft_group_id log_idx
            (shows_of P.shown self.old)
            (shows_of P.shown self.new) error) }
        ensures memory { IfErr result (λ error. error ≡ errors.Memory → Runs (shows_of P.shown self.old)) }
        ensures pipes { self.new.pipes ≡ self.old.pipes }
        ensures purges { StaysPurged self.old self.new }
    {
        if self.is_failed() {
            return Err(Error::Failed);
        }
        match self.entry_at(raft_group_id, log_idx) {
            Some(entry) => match self.cache.read_entry(self.alloc, &self.pipes, &entry) {
                Ok(message) => Ok(Some(message)),
                Err(error) => Err(self.unread(error)),
            },
            None => Ok(None),
        }
    }

    /// Appends to `vec` the entries of a group from `begin` on, below `end`, and returns how many. It appends the
    /// first, and more while their bytes are at most `max_size` together. It appends none if none are requested, or if
    /// the group took nothing since it was last cleaned. A block is read once for the consecutive entries in it. If it
    /// fails, nothing is appended.
    ///
    /// # Errors
    /// - `Failed` if the engine has failed.
    /// - `EntryCompacted` if `begin` is below the group's first entry.
    /// - `EntryNotFound` if the group has no entries, or `begin` isn't below the first and the last one is missing.
    /// - The errors of `get_entry` for one of them.
    pub fn fetch_entries_to<M: MessageExt>(
        &mut self,
        raft_group_id: u64,
        begin: u64,
        end: u64,
        max_size: Option<usize>,
        vec: &mut Vec<M::Entry>,
    ) -> Result<usize>
        ensures model { FollowsModel (ModelReads (FetchesMessages M.Entry.reading raft_group_id begin end max_size
            vec.old.items vec.new.items)) result (shows_of P.shown self.old) (shows_of P.shown self.new) }
        ensures ok { IfOk result (FetchesTo M.Entry.reading raft_group_id begin end max_size
            (shows_of P.shown self.old)
            (shows_of P.shown self.new) vec.old.items vec.new.items) }
        ensures none { OnErr result (vec.new.items ≡ vec.old.items) }
        ensures err { IfErr result (λ error.
            HadFailed (shows_of P.shown self.old)
            (shows_of P.shown self.new) error
            ⊎ FailsToFetch M.Entry.reading raft_group_id begin end
            (shows_of P.shown self.old)
            (shows_of P.shown self.new) error) }
        ensures memory { IfErr result (λ error. error ≡ errors.Memory → Runs (shows_of P.shown self.old)) }
        ensures pipes { self.new.pipes ≡ self.old.pipes }
        ensures purges { StaysPurged self.old self.new }
    {
        if self.is_failed() {
            return Err(Error::Failed);
        }
        let len = vec.len();
        match self.read_to(raft_group_id, begin, end, max_size, vec) {
            Ok(count) => Ok(count),
            Err(error) => {
                vec.truncate(len);
                Err(self.unread(error))
            }
        }
    }

    /// Appends the entries of a group as `fetch_entries_to` does, for an engine that hasn't failed. If it fails, it may
    /// have appended some.
    fn read_to<M: Message>(
        &mut self,
        raft_group_id: u64,
        begin: u64,
        end: u64,
        max_size: Option<usize>,
        messages: &mut Vec<M>,
    ) -> Result<usize>
        requires { Lives (shows_of P.shown self.old) }
        ensures ok { IfOk result (FetchesTo M.reading raft_group_id begin end max_size
            (shows_of P.shown self.old)
            (shows_of P.shown self.new) messages.old.items messages.new.items) }
        ensures kept { take (length messages.old.items) messages.new.items ≡ messages.old.items }
        ensures err { IfErr result (FailsToFetch M.reading raft_group_id begin end
            (shows_of P.shown self.old)
            (shows_of P.shown self.new)) }
        ensures there { IfErr result (λ error. error ≡ errors.Memory
            → HasFirst (shown_of self.old.tables raft_group_id) begin end) }
        ensures pipes { self.new.pipes ≡ self.old.pipes }
        ensures purges { StaysPurged self.old self.new }
    {
        let Some(table) = self.tables.get(raft_group_id) else {
            return Ok(0);
        };
        let count = table.count_to(begin, end, in_bytes(max_size))?;
        if count == 0 {
            return Ok(0);
        }
        messages.reserve(count)?;
        let cache = &mut self.cache;
        push_entries(
            self.alloc,
            &self.pipes,
            table,
            cache,
            begin,
            count,
            messages,
        )?;
        Ok(count)
    }

    /// The error that a failed read returns: if the file system has stopped, `Memory` becomes `Io(Other)`.
    fn unread(&self, error: Error) -> Error
        ensures { IsToldAs (P.shown self.now.pipes).disk.stopped error result }
    {
        match error {
            Error::Memory if self.pipes.has_stopped() => Error::Io(ErrorKind::Other),
            error => error,
        }
    }

    /// The place of the entry of a group at an index, if there is one.
    fn entry_at(&self, raft_group_id: u64, index: u64) -> Option<EntryIndex>
        ensures { result ≡ entry_at (shown_of self.now.tables raft_group_id) index }
    {
        match self.tables.known_table(raft_group_id) {
            Some(table) => table.get_entry(index),
            None => None,
        }
    }
}

/// Appends `count` entries of a table, from an index on, as messages. The table must have them, and `messages` room.
/// Reads a block once for the consecutive entries in it. It looks up the places of the next ones before it reads this
/// block, so that the next read needn't wait for the table. If it fails, it may have appended some.
///
/// Not inlined: within a caller its loop has too few registers, which costs a fetch of short entries some 2 %.
#[inline(never)]
fn push_entries<M: Message, P: PipeLog>(
    alloc: Global,
    pipes: &P,
    table: &MemTable,
    cache: &mut BlockCache,
    index: u64,
    count: usize,
    messages: &mut Vec<M>,
) -> Result<()>
    requires first { (shown table.now).first ≤ index }
    requires within { index + count ≤ (shown table.now).first + length (shown table.now).places }
    requires fits { index + count < 2 ^ 64 }
    requires room { vec_len messages.old + count ≤ vec_capacity messages.old }
    ensures ok { OnOk result (AddsEntries M.reading (P.shown pipes.now)
        (entries_on (shown table.now) index count) cache.old cache.new messages.old.items messages.new.items) }
    ensures kept { take (length messages.old.items) messages.new.items ≡ messages.old.items }
    ensures err { IfErr result (AreUnread M.reading (P.shown pipes.now)
        (entries_on (shown table.now) index count) cache.old cache.new) }
{
    let mut hint = 0;
    let mut done = 0;
    let mut next = next_bounds(table, index, count, &mut hint);
    while let Some((block, bounds)) = next {
        done += bounds.len();
        next = next_bounds(table, index + done as u64, count - done, &mut hint);
        cache.read_between(alloc, pipes, block, &bounds, messages)?;
    }
    Ok(())
}

/// The block of a table's entry at an index, and the bounds in it of that entry and the ones after it, at most `left`.
/// None if `left` is 0.
fn next_bounds<'a>(
    table: &'a MemTable,
    index: u64,
    left: usize,
    hint: &mut usize,
) -> Option<(FileBlockHandle, Bounds<'a>)>
    requires first { (shown table.now).first ≤ index }
    requires within { index + left ≤ (shown table.now).first + length (shown table.now).places }
    ensures { AreNext (shown table.now) index left result }
{
    if left == 0 {
        return None;
    }
    Some(table.bounds(index, left, hint))
}

/// A size as a number of bytes.
fn in_bytes(size: Option<usize>) -> Option<u64>
    ensures { result ≡ size }
{
    match size {
        Some(size) => Some(size as u64),
        None => None,
    }
}
