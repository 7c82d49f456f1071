//! Counts the entries and values in a batch.

ghost use Rattle.std.specs.Prelude.{◌≡◌, ◌-◌, ◌^◌, min};
ghost use Rattle.raft_log_replay_context.specs.Written.{written_for, written_in, written_of};

use raft_log_record_items::{LogItem, LogItemContent, OpType};

/// The number of entries and values in these items, at most 2^64 - 1.
pub fn written_count(items: &[LogItem]) -> u64
    ensures { result ≡ min (written_in items.now) (2 ^ 64 - 1) }
{
    let mut count: u64 = 0;
    for item in items {
        count = count.saturating_add(item_count(item));
    }
    count
}

/// The number in an item: its entries, or the value that it puts.
fn item_count(item: &LogItem) -> u64
    ensures { result ≡ written_of item.now.content }
{
    match &item.content {
        LogItemContent::EntryIndexes(entries) => entries.len() as u64,
        LogItemContent::Kv(pair) => value_count(pair.op_type),
        LogItemContent::Command(_) => 0,
    }
}

/// One value for a put.
fn value_count(op_type: OpType) -> u64
    ensures { result ≡ written_for op_type }
{
    match op_type {
        OpType::Put => 1,
        OpType::Del => 0,
    }
}
