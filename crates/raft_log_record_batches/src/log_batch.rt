//! A batch on its way to a file: it is filled, populated, signed for a file, and written.
ghost use Rattle.std.specs.Prelude.{◌≡◌, ◌+◌, ◌≤◌, ◌==◌, if◌then◌else◌};
ghost use Rattle.std.specs.Prelude.{false, ℕ, List, length, vec_len, vec_capacity, IsOk, OnOk, OnErr, IfErr};
ghost use Rattle.raft_log_record_items.specs.Items.{put_item};
ghost use Rattle.raft_log_record_frames.specs.Key.{is_internal};
ghost use Rattle.raft_log_record_frames.specs.Marking.{has_mark_key};
ghost use Rattle.raft_log_record_batches.specs.Batch.{max_entries_len, kept_buffer, roomy};
ghost use Rattle.raft_log_record_batches.specs.Key.{IsKeyRefusal, IsMarkRefusal};

use raft_log_record_frames::record::{are_bytes, fill_record, write_checksum};
use raft_log_record_frames::{
    LOG_BATCH_HEADER_LEN, LogItemBatch, MARK_GROUP, MARK_KEY, Marking, items_size,
};
use raft_log_record_items::{
    Bytes, Command, Error, FileBlockHandle, LogFileContext, LogItem, Message, Result,
};
use std::alloc::{AllocError, Global};
use std::marker::Model;

mod entries;
mod from_index;
mod merge;
mod messages;
mod room;

/// The length of a checksum in bytes.
const CHECKSUM_LEN: usize = 4;

/// The most bytes that the entries of a batch may have.
const MAX_ENTRIES_LEN: usize = 2_147_483_647;

/// The most bytes of a buffer that a batch keeps when it is emptied.
const MAX_KEPT_LEN: usize = 8 << 20;

/// How far a batch is on its way to a file.
#[derive(Clone, Copy, Debug, PartialEq, Eq)]
pub enum BatchState {
    /// Items are being added.
    Filling,
    /// The record is made, and not signed yet.
    Populated,
    /// The record is signed for a file, with this signature.
    Signed(Option<u32>),
    /// The record is in a file, and the items have their places.
    Written,
}

/// Items and the bytes of their entries, and the record of these.
///
/// Contracts see a batch as its state, its items, the bytes of their entries, and its capacity for items and for bytes
/// of a record.
#[derive(Debug, Drop)]
pub struct LogBatch {
    items: LogItemBatch,
    /// Room for the header, the entries' bytes, and once it is populated the rest of the record. It has no bytes if the
    /// buffer was freed.
    buf: Vec<u8>,
    /// The length of all entries in bytes.
    entries_len: usize,
    /// The checksum of the items, once the batch is populated.
    checksum: u32,
    state: BatchState,
}

impl Model for LogBatch {
    ghost use Rattle.raft_log_record_batches.specs.Batch.{Batch, IsBatch, roomy, shown};

    ghost Value = { Batch };

    ghost view = { λ b. shown b.state b.items b.entries_len b.buf };

    ghost invariant = { λ b. IsBatch b.state (roomy b.buf.items) b.entries_len b.checksum b.items.items };
}

impl LogBatch {
    ghost use Rattle.std.specs.Prelude.{◌≡◌, ◌+◌, ◌-◌, ◌≤◌, ◌<◌, ◌^◌, ◌++◌, ◌↔◌, []};
    ghost use Rattle.std.specs.Prelude.{length, min, IfOk, IfErr, IsErr, IsOk, OnOk, OnErr, IsTrue};
    ghost use Rattle.std.specs.Vec.{vec_len, vec_capacity};
    ghost use Rattle.raft_log_record_base.specs.Files.{signature_of};
    ghost use Rattle.raft_log_record_items.specs.Items.{del_item};
    ghost use Rattle.raft_log_record_items.specs.Message.{IsReadBack};
    ghost use Rattle.raft_log_record_items.specs.Placed.{entries_len, laid_out};
    ghost use Rattle.raft_log_record_frames.specs.Record.{record_len};
    ghost use Rattle.raft_log_record_frames.specs.Made.{IsMemoryOrFull};
    ghost use Rattle.raft_log_record_frames.specs.Key.{is_internal};
    ghost use Rattle.raft_log_record_frames.specs.Marking.{mark_key, marking_of_items};
    ghost use Rattle.raft_log_record_batches.specs.declared.log_batch.BatchState.TheVariants.{Filling, Populated};
    ghost use Rattle.raft_log_record_frames.specs.ItemBatch.{command_item, AllLieIn};
    ghost use Rattle.raft_log_record_batches.specs.Key.{IsKeyRefusal};
    ghost use Rattle.raft_log_record_batches.specs.Batch.{batch_size, empty_batch, emptied, max_kept_len};
    ghost use Rattle.raft_log_record_batches.specs.Batch.{written_at, signed_as, signed_bytes, IsButBuffer};
    ghost use Rattle.raft_log_record_batches.specs.Batch.{AddsItem, Puts, Becomes, IsMade, IsSigned};
    ghost use Rattle.raft_log_record_batches.specs.Batch.{IsReadyForEach, IsRecordOf, block_place};
    ghost use Rattle.raft_log_record_batches.specs.Places.{HasBytesInBlock};

    /// An empty batch, in state `Filling`.
    pub fn default(alloc: Global) -> Result<Self, AllocError>
        ensures { IfOk result (λ b. b ≡ empty_batch 0 0) }
    {
        LogBatch::with_capacity(alloc, 0)
    }

    /// An empty batch with room for this many items.
    pub fn with_capacity(alloc: Global, capacity: usize) -> Result<Self, AllocError>
        ensures { IfOk result (λ b. b ≡ empty_batch capacity 0) }
    {
        Ok(LogBatch {
            items: LogItemBatch::with_capacity(alloc, capacity)?,
            buf: Vec::new(alloc),
            entries_len: 0,
            checksum: 0,
            state: BatchState::Filling,
        })
    }

    /// A copy of the batch, in the same state.
    pub fn clone(&self, alloc: Global) -> Result<Self, AllocError>
        ensures { IfOk result (λ b. b ≡ record self.now { capacity = b.capacity; buffer = b.buffer }) }
    {
        let items = self.items.clone(alloc)?;
        let buf = self.buf.as_slice().to_vec(alloc)?;
        Ok(LogBatch {
            items,
            buf,
            entries_len: self.entries_len,
            checksum: self.checksum,
            state: self.state,
        })
    }

    /// Whether the batch has no items.
    pub fn is_empty(&self) -> bool
        ensures { IsTrue result ↔ (self.now.items ≡ []) }
    {
        self.items.is_empty()
    }

    /// The number of items.
    pub fn len(&self) -> usize
        ensures { result ≡ length self.now.items }
    {
        self.items.len()
    }

    /// The items. Once the batch is written, they have their places.
    pub fn items(&self) -> &[LogItem]
        ensures { result.now ≡ self.now.items }
    {
        self.items.as_slice()
    }

    /// Which part of an atomic group the batch is.
    pub fn marking(&self) -> Marking
        ensures { result ≡ marking_of_items self.now.items }
    {
        Marking::parse_all(self.items.as_slice())
    }

    /// How far the batch is.
    pub fn state(&self) -> BatchState
        ensures { result ≡ self.now.state }
    {
        self.state
    }

    /// Adds a mark of an atomic group. If it fails, no item changes.
    pub(crate) fn put_mark(&mut self, alloc: Global, value: &[u8]) -> Result<(), AllocError>
        requires { self.old.state ≡ Filling }
        ensures ok { OnOk result (Puts self.old self.new 0 mark_key value.now) }
        ensures err { OnErr result (Becomes self.old self.new) }
        ensures buffer { self.new.buffer ≡ self.old.buffer }
    {
        self.items.put(alloc, MARK_GROUP, &MARK_KEY, value)
    }

    /// Adds a command of a group. If it fails, nothing changes.
    pub fn add_command(&mut self, raft_group_id: u64, command: Command) -> Result<(), AllocError>
        requires { self.old.state ≡ Filling }
        ensures ok { OnOk result (AddsItem self.old self.new (command_item raft_group_id command)) }
        ensures err { OnErr result (self.new ≡ self.old) }
        ensures succeeds { length self.old.items < self.old.capacity → IsOk result }
        ensures buffer { self.new.buffer ≡ self.old.buffer }
    {
        self.items.add_command(raft_group_id, command)
    }

    /// Adds a put of a key. Fails with `InvalidArgument` if the key begins with two underscores, or with `Memory`. If
    /// it fails, no item changes.
    pub fn put(&mut self, alloc: Global, raft_group_id: u64, key: &[u8], value: &[u8]) -> Result<()>
        requires { self.old.state ≡ Filling }
        ensures ok { OnOk result (Puts self.old self.new raft_group_id key.now value.now) }
        ensures internal { IsTrue (is_internal key.now) → IsErr result }
        ensures err { OnErr result (Becomes self.old self.new) }
        ensures errors { IfErr result (λ e. IsKeyRefusal e key.now) }
        ensures buffer { self.new.buffer ≡ self.old.buffer }
    {
        check_key(alloc, key)?;
        self.items.put(alloc, raft_group_id, key, value)?;
        Ok(())
    }

    /// Adds a put of a key with these bytes, which aren't copied. Fails as `put` does; then no item changes.
    pub fn put_bytes(
        &mut self,
        alloc: Global,
        raft_group_id: u64,
        key: &[u8],
        value: Bytes,
    ) -> Result<()>
        requires { self.old.state ≡ Filling }
        ensures ok { OnOk result (Puts self.old self.new raft_group_id key.now value) }
        ensures internal { IsTrue (is_internal key.now) → IsErr result }
        ensures err { OnErr result (Becomes self.old self.new) }
        ensures errors { IfErr result (λ e. IsKeyRefusal e key.now) }
        ensures buffer { self.new.buffer ≡ self.old.buffer }
    {
        check_key(alloc, key)?;
        self.items.put_bytes(alloc, raft_group_id, key, value)?;
        Ok(())
    }

    /// Adds a deletion of a key. Fails as `put` does; then no item changes.
    pub fn delete(&mut self, alloc: Global, raft_group_id: u64, key: &[u8]) -> Result<()>
        requires { self.old.state ≡ Filling }
        ensures ok { OnOk result (AddsItem self.old self.new (del_item raft_group_id key.now)) }
        ensures internal { IsTrue (is_internal key.now) → IsErr result }
        ensures err { OnErr result (Becomes self.old self.new) }
        ensures errors { IfErr result (λ e. IsKeyRefusal e key.now) }
        ensures buffer { self.new.buffer ≡ self.old.buffer }
    {
        check_key(alloc, key)?;
        self.items.delete(alloc, raft_group_id, key)?;
        Ok(())
    }

    /// Adds a put of a key with the bytes of a message, from which the message can be read back. Fails as `put` does;
    /// then no item changes.
    pub fn put_message<M: Message>(
        &mut self,
        alloc: Global,
        raft_group_id: u64,
        key: &[u8],
        message: &M,
    ) -> Result<()>
        requires { self.old.state ≡ Filling }
        ensures ok { OnOk result (Puts self.old self.new raft_group_id key.now (M.spelling message.now)) }
        ensures again { OnOk result (IsReadBack M.spelling M.reading message.now) }
        ensures internal { IsTrue (is_internal key.now) → IsErr result }
        ensures err { OnErr result (Becomes self.old self.new) }
        ensures errors { IfErr result (λ e. IsKeyRefusal e key.now) }
        ensures buffer { self.new.buffer ≡ self.old.buffer }
    {
        check_key(alloc, key)?;
        self.items.put_message(alloc, raft_group_id, key, message)?;
        Ok(())
    }

    /// Adds a put of a key as it was read from a log: the key may be one of the log's own. Fails with `InvalidArgument`
    /// if it would be a mark of an atomic group, or with `Memory`. If it fails, no item changes.
    pub fn put_as_read(
        &mut self,
        alloc: Global,
        raft_group_id: u64,
        key: &[u8],
        value: &[u8],
    ) -> Result<()>
        requires { self.old.state ≡ Filling }
        ensures ok { OnOk result (Puts self.old self.new raft_group_id key.now value.now) }
        ensures plain { OnOk result (has_mark_key (put_item raft_group_id key.now value.now) ≡ false) }
        ensures err { OnErr result (Becomes self.old self.new) }
        ensures errors { IfErr result (λ e. IsMarkRefusal e raft_group_id key.now) }
        ensures buffer { self.new.buffer ≡ self.old.buffer }
    {
        check_mark(alloc, raft_group_id, key)?;
        self.items.put(alloc, raft_group_id, key, value)?;
        Ok(())
    }

    /// Adds a deletion of a key as it was read from a log: the key may be one of the log's own, because no mark is a
    /// deletion. If it fails, no item changes.
    pub fn delete_as_read(
        &mut self,
        alloc: Global,
        raft_group_id: u64,
        key: &[u8],
    ) -> Result<(), AllocError>
        requires { self.old.state ≡ Filling }
        ensures ok { OnOk result (AddsItem self.old self.new (del_item raft_group_id key.now)) }
        ensures err { OnErr result (Becomes self.old self.new) }
        ensures buffer { self.new.buffer ≡ self.old.buffer }
    {
        self.items.delete(alloc, raft_group_id, key)
    }

    /// Makes the record, and returns its length in bytes, which is the same for every file that it may be signed for.
    /// An empty batch has no bytes, and doesn't fail.
    ///
    /// Fails with `Full` if the record's length needs more than 56 bits, or with `Memory`. If it fails, only the
    /// buffer's capacity changes.
    pub fn finish_populate(&mut self) -> Result<usize>
        requires { self.old.state ≡ Filling }
        ensures ok { OnOk result (IsButBuffer (record self.old { state = Populated }) self.new) }
        ensures ready { IfOk result (λ len. IsReadyForEach len self.old.items self.old.entries) }
        ensures succeeds { self.old.items ≡ [] → IsOk result }
        ensures err { OnErr result (IsButBuffer self.old self.new) }
        ensures errors { IfErr result (λ e. IsMemoryOrFull e (record_len self.old.items self.old.entries)) }
    {
        if self.items.is_empty() {
            self.state = BatchState::Populated;
            return Ok(0);
        }
        let footer_len = items_size(self.items.as_slice()).saturating_add(12 + CHECKSUM_LEN);
        make_room(&mut self.buf, footer_len)?;
        let filled = self.buf.len();
        match fill_record(&mut self.buf, self.items.as_slice()) {
            Ok(checksum) => {
                self.checksum = checksum;
                self.state = BatchState::Populated;
                Ok(self.encoded_len())
            }
            Err(error) => {
                self.buf.truncate(filled);
                Err(error)
            }
        }
    }

    /// The record's length in bytes, the same for every file that it may be signed for; 0 for an empty batch.
    pub fn encoded_len(&self) -> usize
        requires { IsMade self.now.state }
        ensures ready { IsReadyForEach result self.now.items self.now.entries }
        ensures laid { laid_out 0 self.now.items ≡ self.now.items }
        ensures adds { entries_len self.now.items ≡ length self.now.entries }
    {
        if self.items.is_empty() {
            return 0;
        }
        are_bytes(self.buf.as_slice());
        self.buf.len()
    }

    /// Signs the record for a file. It may be signed again for another one.
    pub fn prepare_write(&mut self, context: &LogFileContext)
        requires { IsMade self.old.state }
        ensures { self.new ≡ signed_as (signature_of context.now) self.old }
    {
        let signature = context.get_signature();
        if self.items.is_empty() {
            self.state = BatchState::Signed(signature);
            return;
        }
        let checksum = self.checksum ^ signature.unwrap_or(0);
        write_checksum(self.buf.as_mut_slice(), checksum);
        self.state = BatchState::Signed(signature);
    }

    /// Removes the signature: the record was not written, and may be signed again.
    pub fn unsign(&mut self)
        requires { IsSigned self.old.state }
        ensures { self.new ≡ record self.old { state = Populated } }
    {
        if self.items.is_empty() {
            self.state = BatchState::Populated;
            return;
        }
        write_checksum(self.buf.as_mut_slice(), self.checksum);
        self.state = BatchState::Populated;
    }

    /// Removes the record: the batch is being filled again, with all that was added.
    pub fn unpopulate(&mut self)
        requires { self.old.state ≡ Populated }
        ensures { self.new ≡ record self.old { state = Filling } }
    {
        self.buf.truncate(LOG_BATCH_HEADER_LEN + self.entries_len);
        self.state = BatchState::Filling;
    }

    /// The bytes of the record for the file for which it was signed. An empty batch has none.
    pub fn encoded_bytes(&self) -> &[u8]
        requires { IsSigned self.now.state }
        ensures whole { IsRecordOf self.now result.now }
        ensures exact { result.now ≡ signed_bytes self.now }
    {
        if self.items.is_empty() {
            return &self.buf[self.buf.len()..];
        }
        let bytes = self.buf.as_slice();
        are_bytes(bytes);
        bytes
    }

    /// Records that the batch was written at this place. Each entry gets the place of the entry block, which begins 16
    /// bytes later, after the header. Each key gets the file.
    pub fn finish_write(&mut self, handle: FileBlockHandle)
        requires signed { IsSigned self.old.state }
        requires place { handle.offset + 16 < 2 ^ 64 }
        ensures written { self.new ≡ written_at handle self.old }
        ensures inside { AllLieIn (block_place handle self.old.entries) self.new.items }
        ensures bytes { HasBytesInBlock self.old self.new }
        ensures laid { laid_out 0 self.new.items ≡ self.new.items }
        ensures adds { entries_len self.new.items ≡ length self.new.entries }
    {
        let len = block_len(self.entries_len);
        let block = FileBlockHandle {
            id: handle.id,
            offset: handle.offset + LOG_BATCH_HEADER_LEN as u64,
            len,
        };
        self.items.set_written(block);
        self.state = BatchState::Written;
    }

    /// About how many bytes the record has: those of the header and the entry block, and those of the footer if each
    /// number has eight; at most 2^64 - 1, and 0 for an empty batch.
    pub fn approximate_size(&self) -> usize
        ensures { result ≡ min (batch_size self.now.items self.now.entries) (2 ^ 64 - 1) }
    {
        if self.items.is_empty() {
            return 0;
        }
        items_size(self.items.as_slice()).saturating_add(28 + block_len(self.entries_len))
    }

    /// Moves the items to the end of the vector, and leaves an empty batch as `clear` does. It can fail only if the
    /// vector has no room for them, and then moves none. The vector's capacity doesn't shrink.
    pub fn drain(&mut self, into: &mut Vec<LogItem>) -> Result<(), AllocError>
        ensures items { OnOk result (into.new.items ≡ into.old.items ++ self.old.items) }
        ensures room { vec_capacity into.old ≤ vec_capacity into.new }
        ensures emptied { OnOk result (self.new ≡ emptied self.old) }
        ensures bounded { OnOk result (self.new.buffer ≤ max_kept_len) }
        ensures err { OnErr result ((into.new.items ≡ into.old.items) × (self.new ≡ self.old)) }
        ensures succeeds { vec_len into.old + length self.old.items ≤ vec_capacity into.old → IsOk result }
    {
        self.items.drain(into)?;
        empty(&mut self.buf);
        self.entries_len = 0;
        self.state = BatchState::Filling;
        Ok(())
    }

    /// Drops what was added, and leaves an empty batch in state `Filling`, with its capacity for items. It keeps the
    /// buffer too, unless that has more than 8 MiB.
    pub fn clear(&mut self)
        ensures emptied { self.new ≡ emptied self.old }
        ensures bounded { self.new.buffer ≤ max_kept_len }
    {
        self.items.clear();
        empty(&mut self.buf);
        self.entries_len = 0;
        self.state = BatchState::Filling;
    }
}

/// Whether the key begins with two underscores.
fn is_internal(key: &[u8]) -> bool
    ensures { result ≡ is_internal key.now }
{
    match key {
        [first, second, ..] => *first == b'_' && *second == b'_',
        _ => false,
    }
}

/// Fails if the key is one of the log's own.
fn check_key(alloc: Global, key: &[u8]) -> Result<()>
    ensures ok { OnOk result (is_internal key.now ≡ false) }
    ensures errors { IfErr result (λ e. IsKeyRefusal e key.now) }
{
    if is_internal(key) {
        return Err(Error::InvalidArgument(format!(in alloc;
            "key prefix `__` reserved for internal usage"
        )?));
    }
    Ok(())
}

/// Fails if a put of this key would be a mark of an atomic group.
#[tactic(auto, unfolding(raft_log_record_frames::specs::Marking::has_mark_key))]
fn check_mark(alloc: Global, raft_group_id: u64, key: &[u8]) -> Result<()>
    ensures ok { OnOk result ((value : List ℕ) → has_mark_key (put_item raft_group_id key.now value) ≡ false) }
    ensures errors { IfErr result (λ e. IsMarkRefusal e raft_group_id key.now) }
{
    if raft_group_id == MARK_GROUP && key == MARK_KEY.as_slice() {
        return Err(Error::InvalidArgument(format!(in alloc;
            "a mark of an atomic group is no value"
        )?));
    }
    Ok(())
}

/// The length of the block of entries with `len` bytes.
fn block_len(len: usize) -> usize
    requires { len ≤ max_entries_len }
    ensures { result ≡ (if len == 0 then 0 else len + 4) }
{
    if len == 0 { 0 } else { len + CHECKSUM_LEN }
}

/// Makes room for this many more bytes, and for a header in an empty buffer, in one reservation. If it fails, the bytes
/// are unchanged.
fn make_room(buf: &mut Vec<u8>, more: usize) -> Result<(), AllocError>
    ensures ok { OnOk result (buf.new.items ≡ roomy buf.old.items) }
    ensures room { OnOk result (vec_len buf.new + more ≤ vec_capacity buf.new) }
    ensures grows { vec_capacity buf.old ≤ vec_capacity buf.new }
    ensures err { OnErr result (buf.new.items ≡ buf.old.items) }
    ensures succeeds { length (roomy buf.old.items) + more ≤ vec_capacity buf.old → IsOk result }
{
    if !buf.is_empty() {
        return buf.reserve(more);
    }
    buf.reserve(more.saturating_add(LOG_BATCH_HEADER_LEN))?;
    buf.extend_from_slice(&[0; LOG_BATCH_HEADER_LEN])
}

/// Truncates the buffer to the room for the header, or frees it if it has more than is kept.
fn empty(buf: &mut Vec<u8>)
    requires { 16 ≤ length (roomy buf.old.items) }
    ensures header { length (roomy buf.new.items) ≡ 16 }
    ensures kept { vec_capacity buf.new ≡ kept_buffer (vec_capacity buf.old) }
{
    if buf.capacity() > MAX_KEPT_LEN {
        buf.clear();
        buf.shrink_to_fit();
    } else {
        buf.truncate(LOG_BATCH_HEADER_LEN);
    }
}
