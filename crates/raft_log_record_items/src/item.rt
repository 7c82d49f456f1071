//! Items: the changes of groups in a batch.
ghost use Rattle.std.specs.Prelude.{◌≡◌, ◌+◌, ◌-◌, ◌<◌, ◌≤◌, ◌^◌, ◌++◌, min, OnOk, OnErr};
ghost use Rattle.raft_log_record_base.specs.Fault.{ReadsOrMemory, DecodesOrMemory};
ghost use Rattle.raft_log_record_items.specs.Items.{IsItem, item_of, new_key};
ghost use Rattle.raft_log_record_items.specs.Placed.{content_len, laid_content, written_content, placed_item};
ghost use Rattle.raft_log_record_items.specs.Reading.{content_of_at, item_at};
ghost use Rattle.raft_log_record_items.specs.Writing.{content_bytes, item_bytes, plain_item, IsSpelledContent, KeepsFront};

use crate::command::Command;
use crate::entry_indexes::EntryIndexes;
use crate::key_value::KeyValue;
use crate::op_type::OpType;
use raft_lists::Bytes;
use raft_log_record_base::codec::{
    BytesSlice, append_var_u64, decode_var_u64, or_cut_back, read_u8,
};
use raft_log_record_base::{Error, FileBlockHandle, Result};
use std::alloc::{AllocError, Global};

/// The kind byte of an item with entries.
const TYPE_ENTRIES: u8 = 1;

/// The kind byte of an item with a command.
const TYPE_COMMAND: u8 = 2;

/// The kind byte of an item with a key.
const TYPE_KV: u8 = 3;

/// The content of an item.
#[derive(Clone, Debug, Drop, PartialEq)]
pub enum LogItemContent {
    EntryIndexes(EntryIndexes),
    Command(Command),
    Kv(KeyValue),
}

/// One change of a group in a batch.
#[derive(Clone, Debug, Drop, PartialEq)]
pub struct LogItem {
    pub raft_group_id: u64,
    pub content: LogItemContent,
}

impl LogItem {
    ghost use Rattle.raft_log_record_items.specs.declared.item.LogItemContent.TheVariants as contents;

    /// Entries of a group.
    pub fn new_entry_indexes(raft_group_id: u64, entry_indexes: EntryIndexes) -> Self
        ensures { result ≡ item_of raft_group_id (contents.EntryIndexes entry_indexes) }
    {
        LogItem {
            raft_group_id,
            content: LogItemContent::EntryIndexes(entry_indexes),
        }
    }

    /// A command of a group.
    pub fn new_command(raft_group_id: u64, command: Command) -> Self
        ensures { result ≡ item_of raft_group_id (contents.Command command) }
    {
        LogItem {
            raft_group_id,
            content: LogItemContent::Command(command),
        }
    }

    /// A put or a deletion of a group's key.
    pub fn new_kv(raft_group_id: u64, op_type: OpType, key: Bytes, value: Option<Bytes>) -> Self
        ensures { result ≡ item_of raft_group_id (contents.Kv (new_key op_type key value)) }
    {
        LogItem {
            raft_group_id,
            content: LogItemContent::Kv(KeyValue::new(op_type, key, value)),
        }
    }

    /// The length of the item's entries in bytes, or 2^64 - 1 if they are longer.
    pub fn entries_len(&self) -> u64
        ensures { result ≡ min (content_len self.now.content) (2 ^ 64 - 1) }
    {
        match &self.content {
            LogItemContent::EntryIndexes(entries) => entries.bytes_len(),
            _ => 0,
        }
    }

    /// Sets the item's places: its entries are one after another in the block at this place, from this offset on.
    /// Returns the offset of the next entry, or 2^64 - 1 if that is higher. If the returned offset is 2^32 or more, the
    /// item is unchanged.
    pub fn place(&mut self, block: FileBlockHandle, offset: u64) -> u64
        ensures end { result ≡ min (offset + content_len self.old.content) (2 ^ 64 - 1) }
        ensures places { result < 2 ^ 32 → self.new ≡ placed_item block offset self.old }
        ensures kept { 2 ^ 32 ≤ result → self.new ≡ self.old }
    {
        let end = offset.saturating_add(self.entries_len());
        if end <= u32::MAX as u64 {
            lay_out_content(&mut self.content, offset as u32);
            set_content_written(&mut self.content, block);
        }
        end
    }

    /// Reads an item. Its bytes have neither the places of its entries nor the file of its key.
    ///
    /// Fails with `Codec` if the bytes end early or a number doesn't fit 64 bits. Fails with `Corruption` for an
    /// unknown kind or a fault of the content. Fails with `Memory`. If it fails, it consumes nothing.
    pub fn decode(alloc: Global, source: &mut BytesSlice<'_>) -> Result<LogItem>
        ensures decodes { DecodesOrMemory IsItem result source.old.now source.new.now }
        ensures exact { ReadsOrMemory result source.old.now source.new.now (item_at source.old.now) }
    {
        split_item(alloc, source)
    }

    /// Appends the item, each number in its shortest spelling. If it fails, the buffer's bytes are unchanged.
    pub fn encode(&self, out: &mut Vec<u8>) -> Result<(), AllocError>
        ensures ok { OnOk result (out.new.items ≡ out.old.items ++ item_bytes self.now) }
        ensures err { OnErr result (out.new.items ≡ out.old.items) }
        ensures spelled { OnOk result (IsItem (item_bytes self.now) (plain_item self.now)) }
    {
        let start = out.len();
        or_cut_back(append_item(out, self), out, start)
    }
}

/// Reads an item.
#[tactic(auto, unfolding(crate::specs::Reading::item_at))]
fn split_item(alloc: Global, source: &mut BytesSlice<'_>) -> Result<LogItem>
    ensures { ReadsOrMemory result source.old.now source.new.now (item_at source.old.now) }
{
    let mut rest: &[u8] = *source;
    let raft_group_id = decode_var_u64(&mut rest)?;
    let kind = read_u8(&mut rest)?;
    let content = split_content_of(alloc, &mut rest, kind)?;
    *source = rest;
    Ok(LogItem {
        raft_group_id,
        content,
    })
}

/// Reads the content of this kind.
#[tactic(auto, unfolding(crate::specs::Reading::content_of_at))]
fn split_content_of(alloc: Global, source: &mut BytesSlice<'_>, kind: u8) -> Result<LogItemContent>
    ensures { ReadsOrMemory result source.old.now source.new.now (content_of_at kind source.old.now) }
{
    match kind {
        TYPE_ENTRIES => Ok(LogItemContent::EntryIndexes(EntryIndexes::decode(alloc, source)?)),
        TYPE_COMMAND => Ok(LogItemContent::Command(Command::decode(alloc, source)?)),
        TYPE_KV => Ok(LogItemContent::Kv(KeyValue::decode(alloc, source)?)),
        _ => Err(Error::Corruption(format!(in alloc; "Unrecognized item type: {kind}")?)),
    }
}

/// Appends an item.
#[tactic(auto, unfolding(crate::specs::Writing::item_bytes))]
pub(crate) fn append_item(out: &mut Vec<u8>, item: &LogItem) -> Result<(), AllocError>
    ensures ok { OnOk result (out.new.items ≡ out.old.items ++ item_bytes item.now) }
    ensures err { OnErr result (KeepsFront out.old.items out.new.items) }
    ensures spelled { OnOk result (IsItem (item_bytes item.now) (plain_item item.now)) }
{
    append_var_u64(out, item.raft_group_id)?;
    append_content(out, &item.content)?;
    Ok(())
}

/// Appends the kind of a content, and the content.
#[tactic(auto, unfolding(crate::specs::Writing::content_bytes))]
fn append_content(out: &mut Vec<u8>, content: &LogItemContent) -> Result<(), AllocError>
    ensures ok { OnOk result (out.new.items ≡ out.old.items ++ content_bytes content.now) }
    ensures err { OnErr result (KeepsFront out.old.items out.new.items) }
    ensures spelled { OnOk result (IsSpelledContent content.now) }
{
    match content {
        LogItemContent::EntryIndexes(entries) => {
            out.push(TYPE_ENTRIES)?;
            entries.encode(out)?;
        }
        LogItemContent::Command(command) => {
            out.push(TYPE_COMMAND)?;
            command.encode(out)?;
        }
        LogItemContent::Kv(key_value) => {
            out.push(TYPE_KV)?;
            key_value.encode(out)?;
        }
    }
    Ok(())
}

/// Lays out the entries of a content from this offset in their block on, and returns the offset of the next entry.
pub(crate) fn lay_out_content(content: &mut LogItemContent, offset: u32) -> u32
    requires { offset + content_len content.old < 2 ^ 32 }
    ensures laid { content.new ≡ laid_content offset content.old }
    ensures end { result ≡ offset + content_len content.old }
{
    match content {
        LogItemContent::EntryIndexes(entries) => entries.lay_out(offset),
        _ => offset,
    }
}

/// Sets the places of a content whose entry block was written at this place.
pub(crate) fn set_content_written(content: &mut LogItemContent, handle: FileBlockHandle)
    ensures { content.new ≡ written_content handle content.old }
{
    match content {
        LogItemContent::EntryIndexes(entries) => entries.set_written(handle),
        LogItemContent::Command(_) => {}
        LogItemContent::Kv(key_value) => key_value.file_id = Some(handle.id),
    }
}
