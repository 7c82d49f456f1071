//! A cache of one entry block, the last one read.

ghost use Rattle.std.specs.Prelude.{◌≡◌, ◌↔◌, IsTrue, ℕ, ◌+◌, ◌-◌, ◌<◌, ◌≤◌, None, Some, IfErr, IfOk, IfSome, OnErr, OnOk, length, take, vec_capacity, vec_len};
ghost use Rattle.raft_log_block_cache.specs.Blocks.{IsOutside};
ghost use Rattle.raft_log_block_cache.specs.Stored.{part};

use raft_log_dual_pipes::PipeLog;
use raft_log_extents::Bounds;
use raft_log_record_base::{Error, FileBlockHandle, Result};
use raft_log_record_frames::decode_entries_block;
use raft_log_record_items::{CompressionType, EntryIndex, Message};
use std::alloc::Global;

/// The last entry block that was read, with its checksum and its location; or none.
///
/// It must be cleared after a file left the live range, since the file's bytes may change then. Each block is read over
/// the bytes of the one before, so the cache keeps the capacity of the longest.
#[derive(Drop)]
pub struct BlockCache {
    place: Option<FileBlockHandle>,
    bytes: Vec<u8>,
}

impl BlockCache {
    ghost use Rattle.raft_log_block_cache.specs.Blocks.{AddsEntries, AreUnread, IsEntryUnread, IsNoEntry, KeepsBlock, LosesBlock, ReadsEntries, ReadsEntry, entries_in};
    ghost use Rattle.raft_log_extents.specs.Bounds.{AreShort, bounds_of};
    ghost use Rattle.raft_log_extents.specs.Entries.{entries_between};

    /// A cache without a block. It takes no memory.
    pub fn new(alloc: Global) -> BlockCache
        ensures { result.place ≡ None }
    {
        BlockCache {
            place: None,
            bytes: Vec::new(alloc),
        }
    }

    /// Forgets the block.
    pub fn clear(&mut self)
        ensures { self.new.place ≡ None }
    {
        self.place = None;
    }

    /// Caches a block. If it is cached already, nothing is read, and the call succeeds.
    ///
    /// Fails as the pipes' read does, with `Corruption` if the block's checksum is wrong, or with `Memory`. If it
    /// fails, no block is cached.
    pub fn read<P: PipeLog>(
        &mut self,
        alloc: Global,
        pipes: &P,
        block: FileBlockHandle,
    ) -> Result<()>
        ensures ok { OnOk result (KeepsBlock (P.shown pipes.now) block self.old self.new) }
        ensures err { IfErr result (LosesBlock (P.shown pipes.now) block self.old self.new) }
    {
        if self.place == Some(block) {
            return Ok(());
        }
        self.place = None;
        pipes.read_over(alloc, block, &mut self.bytes)?;
        decode_entries_block(alloc, self.bytes.as_slice(), CompressionType::None)?;
        self.place = Some(block);
        Ok(())
    }

    /// The bytes of an entry of the cached block, by its offset and length in the block. Nothing is copied.
    ///
    /// Fails with `Corruption` if the entry reaches past the block's entries, which end before the checksum; with
    /// `Memory` if there is none for that error's text.
    pub fn entry(&self, alloc: Global, offset: u32, len: u32) -> Result<&[u8]>
        ensures ok { IfOk result (λ bytes. (offset + len ≤ entries_in self.now)
            × (bytes.now ≡ part offset len self.now.bytes.items)) }
        ensures err { IfErr result (IsNoEntry offset len self.now) }
    {
        let start = offset as u64;
        let end = start + len as u64;
        match between(self.entries(), start, end) {
            Some(bytes) => Ok(bytes),
            None => Err(past_the_end(alloc, start, end)),
        }
    }

    /// The bytes of all entries of the cached block, one after another. Nothing is copied.
    fn entries(&self) -> &[u8]
        ensures bytes { result.now ≡ take (entries_in self.now) self.now.bytes.items }
        ensures len { length result.now ≡ entries_in self.now }
    {
        let len = self.bytes.len().saturating_sub(LOG_BATCH_CHECKSUM_LEN);
        let (entries, _) = self.bytes.split_at(len);
        entries
    }

    /// Reads the entry at a place as a message. Afterwards its block is cached.
    ///
    /// Fails as `read` and `entry` do. Fails with `InvalidArgument` if the entry is in no file, and with `Message` if
    /// its bytes don't parse as a message.
    pub fn read_entry<M: Message, P: PipeLog>(
        &mut self,
        alloc: Global,
        pipes: &P,
        entry: &EntryIndex,
    ) -> Result<M>
        ensures ok { IfOk result (ReadsEntry M.reading (P.shown pipes.now) entry.now self.old self.new) }
        ensures err { IfErr result (IsEntryUnread M.reading (P.shown pipes.now) entry.now self.old self.new) }
    {
        let Some(block) = entry.entries else {
            return Err(Error::InvalidArgument(format!(in alloc; "The entry is in no file")?));
        };
        self.read(alloc, pipes, block)?;
        let bytes = self.entry(alloc, entry.entry_offset, entry.entry_len)?;
        M::parse(alloc, bytes)
    }

    /// Reads the entries at these places as messages. Consecutive entries of one block need a single read.
    ///
    /// Fails as `read_entry` does for the first entry that isn't read, or with `Memory`.
    pub fn read_entries<M: Message, P: PipeLog>(
        &mut self,
        alloc: Global,
        pipes: &P,
        entries: &[EntryIndex],
    ) -> Result<Vec<M>>
        ensures ok { IfOk result (λ messages.
            ReadsEntries M.reading (P.shown pipes.now) entries.now self.old self.new messages.items) }
        ensures err { IfErr result
            (AreUnread M.reading (P.shown pipes.now) entries.now self.old self.new) }
    {
        let mut messages = Vec::with_capacity(alloc, entries.len())?;
        self.push_entries(alloc, pipes, entries, &mut messages)?;
        Ok(messages)
    }

    /// Appends the entries of a block between these bounds, as messages. There must be at least one entry, and
    /// `messages` must have room for them. The block is read at most once. If it fails, the old messages stay, and some
    /// new ones may follow them.
    ///
    /// Fails as `read_entry` does for the first entry that isn't read.
    pub fn read_between<M: Message, P: PipeLog>(
        &mut self,
        alloc: Global,
        pipes: &P,
        block: FileBlockHandle,
        bounds: &Bounds<'_>,
        messages: &mut Vec<M>,
    ) -> Result<()>
        requires some { 1 < length (bounds_of bounds.now) }
        requires short { AreShort bounds.now }
        requires room { vec_len messages.old + length (bounds_of bounds.now) ≤ vec_capacity messages.old + 1 }
        ensures ok { OnOk result ((n : ℕ) → AddsEntries M.reading (P.shown pipes.now)
            (entries_between block n (bounds_of bounds.now)) self.old self.new messages.old.items messages.new.items) }
        ensures kept { take (length messages.old.items) messages.new.items ≡ messages.old.items }
        ensures capacity { OnOk result (vec_capacity messages.new ≡ vec_capacity messages.old) }
        ensures len { OnOk result (vec_len messages.new + 1 ≡ vec_len messages.old + length (bounds_of bounds.now)) }
        ensures err { IfErr result (λ error. (n : ℕ) → AreUnread M.reading (P.shown pipes.now)
            (entries_between block n (bounds_of bounds.now)) self.old self.new error) }
    {
        self.read(alloc, pipes, block)?;
        let entries = self.entries();
        let (mut start, _) = bounds.at(0);
        for i in 0..bounds.len() {
            let (_, end) = bounds.at(i);
            let Some(bytes) = between(entries, start, end) else {
                return Err(past_the_end(alloc, start, end));
            };
            let message = M::parse(alloc, bytes)?;
            messages.push_reserved(message);
            start = end;
        }
        Ok(())
    }

    /// Appends the entries at these places, as messages. Fails as `read_entries` does; then nothing is added.
    pub fn read_entries_to<M: Message, P: PipeLog>(
        &mut self,
        alloc: Global,
        pipes: &P,
        entries: &[EntryIndex],
        messages: &mut Vec<M>,
    ) -> Result<()>
        ensures ok { OnOk result (AddsEntries M.reading (P.shown pipes.now) entries.now self.old self.new
            messages.old.items messages.new.items) }
        ensures none { OnErr result (messages.new.items ≡ messages.old.items) }
        ensures err { IfErr result
            (AreUnread M.reading (P.shown pipes.now) entries.now self.old self.new) }
    {
        let len = messages.len();
        messages.reserve(entries.len())?;
        match self.push_entries(alloc, pipes, entries, messages) {
            Ok(()) => Ok(()),
            Err(error) => {
                messages.truncate(len);
                Err(error)
            }
        }
    }

    /// Appends the entries at these places, as messages. The caller reserved the capacity. If it fails, the old
    /// messages stay, and some new ones may follow them.
    fn push_entries<M: Message, P: PipeLog>(
        &mut self,
        alloc: Global,
        pipes: &P,
        entries: &[EntryIndex],
        messages: &mut Vec<M>,
    ) -> Result<()>
        requires { vec_len messages.old + length entries.now ≤ vec_capacity messages.old }
        ensures ok { OnOk result (AddsEntries M.reading (P.shown pipes.now) entries.now self.old self.new
            messages.old.items messages.new.items) }
        ensures kept { take (length messages.old.items) messages.new.items ≡ messages.old.items }
        ensures err { IfErr result
            (AreUnread M.reading (P.shown pipes.now) entries.now self.old self.new) }
    {
        let mut done = 0;
        while done < entries.len() {
            let (_, rest) = entries.split_at(done);
            let count = self.push_piece(alloc, pipes, rest, messages)?;
            done += count;
        }
        Ok(())
    }

    /// Appends the first of these entries, as messages, up to the first one of another block, and returns how many.
    /// There is at least one entry, and the caller reserved the capacity. If it fails, the old messages stay, and
    /// some new ones may follow them.
    fn push_piece<M: Message, P: PipeLog>(
        &mut self,
        alloc: Global,
        pipes: &P,
        entries: &[EntryIndex],
        messages: &mut Vec<M>,
    ) -> Result<usize>
        requires some { 0 < length entries.now }
        requires room { vec_len messages.old + length entries.now ≤ vec_capacity messages.old }
        ensures count { IfOk result (λ count. (0 < count) × (count ≤ length entries.now)) }
        ensures ok { IfOk result (λ count. AddsEntries M.reading (P.shown pipes.now) (take count entries.now)
            self.old self.new messages.old.items messages.new.items) }
        ensures len { IfOk result (λ count. (vec_len messages.new ≡ vec_len messages.old + count)
            × (vec_capacity messages.new ≡ vec_capacity messages.old)) }
        ensures kept { take (length messages.old.items) messages.new.items ≡ messages.old.items }
        ensures err { IfErr result
            (AreUnread M.reading (P.shown pipes.now) entries.now self.old self.new) }
    {
        let Some(block) = entries[0].entries else {
            return Err(Error::InvalidArgument(format!(in alloc; "The entry is in no file")?));
        };
        self.read(alloc, pipes, block)?;
        for i in 0..entries.len() {
            let entry = &entries[i];
            if !lies_in(entry, block) {
                return Ok(i);
            }
            let bytes = self.entry(alloc, entry.entry_offset, entry.entry_len)?;
            let message = M::parse(alloc, bytes)?;
            messages.push_reserved(message);
        }
        Ok(entries.len())
    }
}

/// Whether an entry is in this block.
fn lies_in(entry: &EntryIndex, block: FileBlockHandle) -> bool
    ensures { IsTrue result ↔ (entry.now.entries ≡ Some block) }
{
    entry.entries == Some(block)
}

/// The bytes of a block's entries from one bound up to another; none from `start` on if `end` is lower. `None` if the
/// bounds reach past the entries. Nothing is copied.
fn between(entries: &[u8], start: u64, end: u64) -> Option<&[u8]>
    ensures some { IfSome result (λ bytes. (start + (end - start) ≤ length entries.now)
        × (bytes.now ≡ part start (end - start) entries.now)) }
    ensures none { result ≡ None → length entries.now < start + (end - start) }
{
    let end = end.max(start);
    if end > entries.len() as u64 {
        return None;
    }
    Some(&entries[start as usize..end as usize])
}

/// The error for an entry between these bounds that reaches past the block's entries: `Corruption`, or `Memory` if
/// there is none for its text.
#[cold]
fn past_the_end(alloc: Global, start: u64, end: u64) -> Error
    ensures { (room : ℕ) → room < start + (end - start) → IsOutside start (end - start) room result }
{
    let end = end.max(start);
    match format!(in alloc; "Entry past the end of its block: {end}") {
        Ok(text) => Error::Corruption(text),
        Err(_) => Error::Memory,
    }
}

/// How many bytes the checksum after the entries has.
const LOG_BATCH_CHECKSUM_LEN: usize = 4;
