//! Lists of items, and the places of their entries.
ghost use Rattle.std.specs.Prelude.{◌≡◌, ◌+◌, ◌/◌, ◌<◌, ◌^◌, ◌++◌, [], flat_map, length, map, min, vec_capacity, IfOk, OnOk, OnErr};
ghost use Rattle.raft_log_record_base.specs.Fault.{ReadsItemsOrMemory, DecodesItemsOrMemory};
ghost use Rattle.raft_log_record_items.specs.Items.{AreItems};
ghost use Rattle.raft_log_record_items.specs.Placed.{entries_len, laid_out, written, placed, ReadsPlaced};
ghost use Rattle.raft_log_record_items.specs.Reading.{items_of_at, items_at};
ghost use Rattle.raft_log_record_items.specs.Writing.{item_bytes, items_bytes, plain_item, AreSpelled, KeepsFront};

use crate::item::{LogItem, append_item, lay_out_content, set_content_written};
use raft_log_record_base::codec::{BytesSlice, append_var_u64, decode_var_u64};
use raft_log_record_base::{FileBlockHandle, Result};
use std::alloc::{AllocError, Global};

/// The fewest bytes of an item: a group, a kind, and a content.
const MIN_ITEM_LEN: usize = 3;

/// A copy of these items, in their order.
pub fn copied(alloc: Global, items: &[LogItem]) -> Result<Vec<LogItem>, AllocError>
    ensures { IfOk result (λ copy. copy.items ≡ items.now) }
{
    let mut copy = Vec::with_capacity(alloc, items.len())?;
    for item in items {
        copy.push(copy_of(item)?)?;
    }
    Ok(copy)
}

/// A copy of the item.
fn copy_of(item: &LogItem) -> Result<LogItem, AllocError>
    ensures { IfOk result (λ copy. copy ≡ item.now) }
{
    item.clone()
}

/// Sets the places of a written batch's items: their entries are one after another in the block at this place. They
/// must have less than 2^32 bytes.
pub fn place(items: &mut [LogItem], handle: FileBlockHandle)
    requires { entries_len items.old < 2 ^ 32 }
    ensures { items.new ≡ placed handle items.old }
{
    lay_out(items, 0);
    set_written(items, handle);
}

/// Lays out the entries of all items one after another, from this offset in their block on. They must end below 2^32.
pub fn lay_out(items: &mut [LogItem], offset: u32)
    requires { offset + entries_len items.old < 2 ^ 32 }
    ensures { items.new ≡ laid_out offset items.old }
{
    let mut next = offset;
    for item in items.iter_mut() {
        next = lay_out_content(&mut item.content, next);
    }
}

/// Sets the places of items whose entry block was written at this place.
pub fn set_written(items: &mut [LogItem], handle: FileBlockHandle)
    ensures { items.new ≡ written handle items.old }
{
    for item in items.iter_mut() {
        set_content_written(&mut item.content, handle);
    }
}

/// Reads a list of items: the count, and then each item.
///
/// Fails as `LogItem::decode` does, and then consumes nothing. It reserves room for at most one item for each three
/// bytes, whatever the count is.
pub fn decode_items(alloc: Global, source: &mut BytesSlice<'_>) -> Result<Vec<LogItem>>
    ensures decodes { DecodesItemsOrMemory AreItems result source.old.now source.new.now }
    ensures exact { ReadsItemsOrMemory result source.old.now source.new.now (items_at source.old.now) }
{
    split_counted_items(alloc, source)
}

/// Reads as many items as the count says.
#[tactic(auto, unfolding(crate::specs::Reading::items_at))]
fn split_counted_items(alloc: Global, source: &mut BytesSlice<'_>) -> Result<Vec<LogItem>>
    ensures { ReadsItemsOrMemory result source.old.now source.new.now (items_at source.old.now) }
{
    let mut rest: &[u8] = *source;
    let count = decode_var_u64(&mut rest)?;
    let items = split_items(alloc, &mut rest, count)?;
    *source = rest;
    Ok(items)
}

/// Reads `count` items.
fn split_items(alloc: Global, source: &mut BytesSlice<'_>, count: u64) -> Result<Vec<LogItem>>
    ensures { ReadsItemsOrMemory result source.old.now source.new.now (items_of_at count source.old.now) }
{
    let mut rest: &[u8] = *source;
    let mut items = room_for_items(alloc, count, rest.len())?;
    for _ in 0..count {
        let item = LogItem::decode(alloc, &mut rest)?;
        items.push(item)?;
    }
    *source = rest;
    Ok(items)
}

/// Reads a list of items whose entries are one after another in the block at this place. Each item gets its places as
/// it is read. Returns the items and the entries' length in bytes, or 2^64 - 1 if they are longer.
///
/// If the entries have 2^32 bytes or more, the contract doesn't give their places. Fails as `decode_items` does.
#[tactic(auto, unfolding(crate::specs::Reading::items_at))]
pub fn decode_placed_items(
    alloc: Global,
    source: &mut BytesSlice<'_>,
    block: FileBlockHandle,
) -> Result<(Vec<LogItem>, u64)>
    ensures { ReadsPlaced block result source.old.now source.new.now (items_at source.old.now) }
{
    let mut rest: &[u8] = *source;
    let count = decode_var_u64(&mut rest)?;
    let found = split_placed_items(alloc, &mut rest, count, block)?;
    *source = rest;
    Ok(found)
}

/// Reads `count` items with their places.
fn split_placed_items(
    alloc: Global,
    source: &mut BytesSlice<'_>,
    count: u64,
    block: FileBlockHandle,
) -> Result<(Vec<LogItem>, u64)>
    ensures { ReadsPlaced block result source.old.now source.new.now (items_of_at count source.old.now) }
{
    let mut rest: &[u8] = *source;
    let mut items = room_for_items(alloc, count, rest.len())?;
    let mut len: u64 = 0;
    for _ in 0..count {
        let mut item = LogItem::decode(alloc, &mut rest)?;
        len = item.place(block, len);
        items.push(item)?;
    }
    *source = rest;
    Ok((items, len))
}

/// Room for `count` items, but for no more than `len` bytes can hold: each takes at least three bytes.
fn room_for_items(alloc: Global, count: u64, len: usize) -> Result<Vec<LogItem>, AllocError>
    ensures empty { IfOk result (λ items. items.items ≡ []) }
    ensures room { IfOk result (λ items. vec_capacity items ≡ min count (len / 3)) }
{
    let room = ((len / MIN_ITEM_LEN) as u64).min(count);
    Vec::with_capacity(alloc, room as usize)
}

/// Appends the count of the items, and each of them. If it fails, a part of them may follow the old bytes.
#[tactic(auto, unfolding(crate::specs::Writing::items_bytes))]
pub fn append_items(out: &mut Vec<u8>, items: &[LogItem]) -> Result<(), AllocError>
    ensures ok { OnOk result (out.new.items ≡ out.old.items ++ items_bytes items.now) }
    ensures err { OnErr result (KeepsFront out.old.items out.new.items) }
    ensures spelled { OnOk result (AreItems (items_bytes items.now) (map plain_item items.now)) }
{
    append_var_u64(out, items.len() as u64)?;
    append_each(out, items)?;
    Ok(())
}

/// Appends each item.
fn append_each(out: &mut Vec<u8>, items: &[LogItem]) -> Result<(), AllocError>
    ensures ok { OnOk result (out.new.items ≡ out.old.items ++ flat_map item_bytes items.now) }
    ensures err { OnErr result (KeepsFront out.old.items out.new.items) }
    ensures spelled { OnOk result (AreSpelled items.now) }
{
    for item in items {
        append_item(out, item)?;
    }
    Ok(())
}
