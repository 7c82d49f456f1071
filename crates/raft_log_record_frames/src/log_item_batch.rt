//! Lists of items: what a footer holds, and what a record is made from.
ghost use Rattle.std.specs.Prelude.{◌≡◌, ◌-◌, ◌^◌, min, slice_get};
ghost use Rattle.raft_log_record_frames.specs.ItemBatch.{content_size, items_size, all_entries};

use crate::decode_placed_footer;
use crate::record::append_footer;
use raft_log_record_base::codec::or_cut_back;
use raft_log_record_items::items::{copied, lay_out, set_written};
use raft_log_record_items::{
    Bytes, Command, CompressionType, EntryIndex, EntryIndexes, FileBlockHandle, LogFileContext,
    LogItem, LogItemContent, Message, OpType,
};
use std::alloc::{AllocError, AllocFailed, Global};
use std::marker::Model;
use std::slice::Iter;

/// A list of items.
///
/// Contracts see it as its items and its capacity, the number of items for which it asks for no memory. Unlike a
/// `LogBatch` it takes the log's own keys too.
#[derive(Debug, Drop)]
pub struct LogItemBatch {
    items: Vec<LogItem>,
}

impl Model for LogItemBatch {
    ghost use Rattle.std.specs.Vec.{vec_capacity};
    ghost use Rattle.raft_log_record_frames.specs.ItemBatch.{ItemBatch};

    ghost Value = { ItemBatch };

    ghost view = { λ b. record { items = b.items.items; capacity = vec_capacity b.items } };
}

impl PartialEq for LogItemBatch {
    ghost use Rattle.std.specs.Cmp.{on_per};
    ghost use Rattle.std.specs.Cmp.Lexicographic.{pointwise, lists_per};
    ghost use Rattle.raft_log_record_items.specs.contracts.item.LogItemPartialEq.TheImpl.Laws.{laws-law};

    ghost eq = { λ a b. pointwise ⟦<LogItem as PartialEq>⟧.eq a.items b.items };

    ghost laws = { on_per (λ b. b.items) (lists_per laws-law) };

    fn eq(&self, other: &LogItemBatch) -> bool {
        self.items.as_slice() == other.items.as_slice()
    }
}

impl LogItemBatch {
    ghost use Rattle.std.specs.Prelude.{◌≡◌, ◌+◌, ◌-◌, ◌≤◌, ◌<◌, ◌^◌, ◌++◌, ◌∷◌, ◌↔◌, []};
    ghost use Rattle.std.specs.Prelude.{length, take, drop, map, min, slice_get, None, IfOk, IfErr, IsOk};
    ghost use Rattle.std.specs.Prelude.{OnOk, OnErr, IsTrue};
    ghost use Rattle.std.specs.Vec.{vec_len, vec_capacity};
    ghost use Rattle.std.specs.Slice.Iter.{iter_rest};
    ghost use Rattle.std.specs.Iterator.Adapters.{IterYieldsInOrder};
    ghost use Rattle.raft_log_record_items.specs.Items.{del_item};
    ghost use Rattle.raft_log_record_items.specs.Message.{IsReadBack};
    ghost use Rattle.raft_log_record_items.specs.Placed.{entries_len, written};
    ghost use Rattle.raft_log_record_base.specs.Files.{signature_of};
    ghost use Rattle.raft_log_record_frames.specs.Record.{footer_bytes, placed_footer_of};
    ghost use Rattle.raft_log_record_frames.specs.Made.{IsPlainFooter};
    ghost use Rattle.raft_log_record_frames.specs.ItemBatch.{no_items, AddsItems, AddsPut, TakesItems, HasItemRoom};
    ghost use Rattle.raft_log_record_frames.specs.ItemBatch.{IsSpelling, laid_from, run_item, command_item};
    ghost use Rattle.raft_log_record_frames.specs.ItemBatch.{items_size, all_entries, FindsPlaced, OnlyPlaced};
    ghost use Rattle.raft_log_record_frames.specs.ItemBatch.{GivesPlaced, AreRead};
    ghost use Rattle.raft_log_record_frames.specs.ItemBatch.{AllLieIn};

    /// An empty batch without capacity.
    pub fn default(alloc: Global) -> Self
        ensures { result ≡ no_items 0 }
    {
        let items = Vec::new(alloc);
        LogItemBatch { items }
    }

    /// An empty batch with this capacity: as many items are added without asking for memory.
    pub fn with_capacity(alloc: Global, capacity: usize) -> Result<Self, AllocError>
        ensures { IfOk result (λ batch. batch ≡ no_items capacity) }
    {
        let items = Vec::with_capacity(alloc, capacity)?;
        Ok(LogItemBatch { items })
    }

    /// A copy of the batch.
    pub fn clone(&self, alloc: Global) -> Result<Self, AllocError>
        ensures { IfOk result (λ batch. batch.items ≡ self.now.items) }
    {
        let items = copied(alloc, self.items.as_slice())?;
        Ok(LogItemBatch { items })
    }

    /// The items; nothing is copied.
    pub fn into_items(self) -> Vec<LogItem>
        ensures { result.items ≡ self.items }
    {
        let LogItemBatch { items } = self;
        items
    }

    /// The items.
    pub fn as_slice(&self) -> &[LogItem]
        ensures { result.now ≡ self.now.items }
    {
        self.items.as_slice()
    }

    /// The items, one after another.
    pub fn iter(&self) -> Iter<'_, LogItem>
        ensures items { iter_rest result ≡ self.now.items }
        ensures runs { IterYieldsInOrder LogItem }
    {
        self.items.iter()
    }

    /// The number of items.
    pub fn len(&self) -> usize
        ensures { result ≡ length self.now.items }
    {
        self.items.len()
    }

    /// Whether the batch has no items.
    pub fn is_empty(&self) -> bool
        ensures { IsTrue result ↔ (self.now.items ≡ []) }
    {
        self.items.is_empty()
    }

    /// How many items fit in all, before memory is asked for.
    pub fn capacity(&self) -> usize
        ensures { result ≡ self.now.capacity }
    {
        self.items.capacity()
    }

    /// Makes room for this many more items. If it fails, nothing changes.
    pub fn reserve(&mut self, additional: usize) -> Result<(), AllocError>
        ensures ok { OnOk result (AddsItems self.old self.new [] × HasItemRoom self.new additional) }
        ensures err { OnErr result (self.new ≡ self.old) }
        ensures succeeds { HasItemRoom self.old additional → IsOk result }
    {
        self.items.reserve(additional)
    }

    /// Drops the items, and keeps the capacity.
    pub fn clear(&mut self)
        ensures { self.new ≡ no_items self.old.capacity }
    {
        self.items.clear();
    }

    /// Moves the items to the end of the vector, and leaves an empty batch with its capacity. It can fail only if the
    /// vector has no room for them, and then changes nothing. The vector's capacity doesn't shrink.
    pub fn drain(&mut self, into: &mut Vec<LogItem>) -> Result<(), AllocError>
        ensures items { OnOk result (into.new.items ≡ into.old.items ++ self.old.items) }
        ensures room { vec_capacity into.old ≤ vec_capacity into.new }
        ensures emptied { OnOk result (self.new ≡ no_items self.old.capacity) }
        ensures err { OnErr result ((into.new.items ≡ into.old.items) × (self.new ≡ self.old)) }
        ensures succeeds { vec_len into.old + length self.old.items ≤ vec_capacity into.old → IsOk result }
    {
        into.append(&mut self.items)
    }

    /// Moves the other batch's items to the end of its own, and leaves the other one empty. It can fail only if there
    /// is no room for them, and then changes neither.
    pub fn merge(&mut self, rhs: &mut LogItemBatch) -> Result<(), AllocError>
        ensures ok { OnOk result (TakesItems self.old self.new rhs.old rhs.new) }
        ensures err { OnErr result ((self.new ≡ self.old) × (rhs.new ≡ rhs.old)) }
        ensures succeeds { HasItemRoom self.old (length rhs.old.items) → IsOk result }
    {
        self.items.reserve(rhs.items.len())?;
        self.items.append(&mut rhs.items)
    }

    /// Adds an item. The batch must have room for it.
    pub fn push_reserved(&mut self, item: LogItem)
        requires { HasItemRoom self.old 1 }
        ensures { self.new ≡ record self.old { items = self.old.items ++ item ∷ [] } }
    {
        self.items.push_reserved(item);
    }

    /// Lays out the items from `first` on, from this offset in their block on. Their entries must end below 2^32.
    pub fn lay_out_rest(&mut self, first: usize, offset: u32)
        requires inside { first ≤ length self.old.items }
        requires fits { offset + entries_len (drop first self.old.items) < 2 ^ 32 }
        ensures items { self.new.items ≡ laid_from first offset self.old.items }
        ensures room { self.new.capacity ≡ self.old.capacity }
    {
        let (_, rest) = self.items.as_mut_slice().split_at_mut(first);
        lay_out(rest, offset);
    }

    /// Sets the places of the items, whose entry block is written at this place.
    pub fn set_written(&mut self, handle: FileBlockHandle)
        ensures items { self.new.items ≡ written handle self.old.items }
        ensures room { self.new.capacity ≡ self.old.capacity }
    {
        set_written(self.items.as_mut_slice(), handle);
    }

    /// Adds a run of entries of a group. If it fails, nothing changes, and the error has the entries.
    pub fn add_entry_indexes(
        &mut self,
        raft_group_id: u64,
        entry_indexes: EntryIndexes,
    ) -> Result<(), AllocFailed<EntryIndexes>>
        ensures ok { OnOk result (AddsItems self.old self.new (run_item raft_group_id entry_indexes ∷ [])) }
        ensures err { OnErr result (self.new ≡ self.old) }
        ensures returned { IfErr result (λ refused. refused.value ≡ entry_indexes) }
        ensures succeeds { HasItemRoom self.old 1 → IsOk result }
    {
        if self.items.reserve(1).is_err() {
            return Err(AllocFailed {
                value: entry_indexes,
            });
        }
        self.items
            .push_reserved(LogItem::new_entry_indexes(raft_group_id, entry_indexes));
        Ok(())
    }

    /// Adds a command of a group. If it fails, nothing changes.
    pub fn add_command(&mut self, raft_group_id: u64, command: Command) -> Result<(), AllocError>
        ensures ok { OnOk result (AddsItems self.old self.new (command_item raft_group_id command ∷ [])) }
        ensures err { OnErr result (self.new ≡ self.old) }
        ensures succeeds { HasItemRoom self.old 1 → IsOk result }
    {
        self.items.reserve(1)?;
        self.items
            .push_reserved(LogItem::new_command(raft_group_id, command));
        Ok(())
    }

    /// Adds a deletion of a key. If it fails, no item changes.
    pub fn delete(
        &mut self,
        alloc: Global,
        raft_group_id: u64,
        key: &[u8],
    ) -> Result<(), AllocError>
        ensures ok { OnOk result (AddsItems self.old self.new (del_item raft_group_id key.now ∷ [])) }
        ensures err { OnErr result (AddsItems self.old self.new []) }
    {
        self.items.reserve(1)?;
        let key = Bytes::from_slice(alloc, key)?;
        self.items
            .push_reserved(LogItem::new_kv(raft_group_id, OpType::Del, key, None));
        Ok(())
    }

    /// Adds a put of a key. If it fails, no item changes.
    pub fn put(
        &mut self,
        alloc: Global,
        raft_group_id: u64,
        key: &[u8],
        value: &[u8],
    ) -> Result<(), AllocError>
        ensures ok { OnOk result (AddsPut self.old self.new raft_group_id key.now value.now) }
        ensures err { OnErr result (AddsItems self.old self.new []) }
    {
        self.items.reserve(1)?;
        let key = Bytes::from_slice(alloc, key)?;
        let value = Bytes::from_slice(alloc, value)?;
        self.items.push_reserved(LogItem::new_kv(raft_group_id, OpType::Put, key, Some(value)));
        Ok(())
    }

    /// Adds a put of a key with these bytes, which aren't copied. If it fails, no item changes.
    pub fn put_bytes(
        &mut self,
        alloc: Global,
        raft_group_id: u64,
        key: &[u8],
        value: Bytes,
    ) -> Result<(), AllocError>
        ensures ok { OnOk result (AddsPut self.old self.new raft_group_id key.now value) }
        ensures err { OnErr result (AddsItems self.old self.new []) }
    {
        self.items.reserve(1)?;
        let key = Bytes::from_slice(alloc, key)?;
        self.items.push_reserved(LogItem::new_kv(raft_group_id, OpType::Put, key, Some(value)));
        Ok(())
    }

    /// Adds a put of a key with the bytes of a message. If it fails, no item changes.
    pub fn put_message<M: Message>(
        &mut self,
        alloc: Global,
        raft_group_id: u64,
        key: &[u8],
        message: &M,
    ) -> Result<(), AllocError>
        ensures ok { OnOk result (AddsPut self.old self.new raft_group_id key.now (M.spelling message.now)) }
        ensures again { OnOk result (IsReadBack M.spelling M.reading message.now) }
        ensures err { OnErr result (AddsItems self.old self.new []) }
    {
        self.items.reserve(1)?;
        let key = Bytes::from_slice(alloc, key)?;
        let mut value = Vec::new(alloc);
        message.write(&mut value)?;
        let value = Bytes::from_vec(value);
        self.items.push_reserved(LogItem::new_kv(raft_group_id, OpType::Put, key, Some(value)));
        Ok(())
    }

    /// Appends the count of the items, each of them, and their checksum. That is a footer of the items without their
    /// places. `decode` reads it in a file without signatures, whichever block their entries fill. If it fails, the
    /// buffer's bytes are unchanged.
    pub fn encode(&self, out: &mut Vec<u8>) -> Result<(), AllocError>
        ensures ok { OnOk result (out.new.items ≡ out.old.items ++ footer_bytes None self.now.items) }
        ensures footer { OnOk result (IsPlainFooter (footer_bytes None self.now.items) self.now.items) }
        ensures read { OnOk result (AreRead (footer_bytes None self.now.items) self.now.items) }
        ensures err { OnErr result (out.new.items ≡ out.old.items) }
        ensures spelled { OnOk result (IsSpelling self.now.items) }
    {
        let start = out.len();
        let appended = append_footer(out, self.items.as_slice());
        or_cut_back(appended.map(|_| ()), out, start)
    }

    /// The items of a whole footer of this file, whose entries are in the block at this place. Each entry gets its
    /// offset in the block and the block's place, and each key its file.
    ///
    /// Fails as `decode_placed_footer` does: if the footer is signed for another file, if the entries' lengths don't
    /// add up to the block, or with the first fault of the items.
    pub fn decode(
        alloc: Global,
        bytes: &[u8],
        entries: FileBlockHandle,
        compression_type: CompressionType,
        context: &LogFileContext,
    ) -> raft_log_record_items::Result<Self>
        ensures found { FindsPlaced result (signature_of context.now) entries bytes.now }
        ensures inside { IfOk result (λ b. AllLieIn entries b.items) }
        ensures only { OnlyPlaced result (signature_of context.now) entries bytes.now }
        ensures exact { GivesPlaced result (placed_footer_of (signature_of context.now) entries bytes.now) }
    {
        let CompressionType::None = compression_type;
        let items = decode_placed_footer(alloc, bytes, entries, context.get_signature())?;
        Ok(LogItemBatch { items })
    }

    /// About how many bytes the footer of these items has, if each number has eight; 2^64 - 1 if it would be more.
    pub fn approximate_size(&self) -> usize
        ensures { result ≡ min (12 + items_size self.now.items) (2 ^ 64 - 1) }
    {
        items_size(self.items.as_slice()).saturating_add(12)
    }

    /// The first of all entries, if there are any.
    pub fn entry_index(&self) -> Option<EntryIndex>
        ensures { result ≡ slice_get (all_entries self.now.items) 0 }
    {
        first_entry(self.items.as_slice())
    }
}

/// About how many bytes a content has, if each number has eight.
fn content_size(content: &LogItemContent) -> usize
    ensures { result ≡ min (content_size content.now) (2 ^ 64 - 1) }
{
    match content {
        LogItemContent::EntryIndexes(entries) => entries.len().saturating_mul(8).saturating_add(16),
        LogItemContent::Command(_) => 8,
        LogItemContent::Kv(key_value) => {
            let value_len = key_value.value.as_ref().map_or(0, |value| value.len());
            let key_len = key_value.key.len();
            key_len.saturating_add(value_len).saturating_add(16)
        }
    }
}

/// About how many bytes these items have, or 2^64 - 1 if it would be more.
pub fn items_size(items: &[LogItem]) -> usize
    ensures { result ≡ min (items_size items.now) (2 ^ 64 - 1) }
{
    let mut size: usize = 0;
    for item in items {
        size = size
            .saturating_add(8)
            .saturating_add(content_size(&item.content));
    }
    size
}

/// The first of all entries, if there are any.
fn first_entry(items: &[LogItem]) -> Option<EntryIndex>
    ensures { result ≡ slice_get (all_entries items.now) 0 }
{
    for item in items {
        if let LogItemContent::EntryIndexes(entries) = &item.content {
            if let Some(first) = entries.as_slice().first() {
                return Some(*first);
            }
        }
    }
    None
}
