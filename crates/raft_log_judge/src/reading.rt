//! Whether a read returned what a log has.
ghost use Rattle.std.specs.Prelude.{◌≡◌, ◌↔◌, ◌+◌, ◌<◌, ◌≤◌, ◌^◌, ℕ, IsTrue, None, Some, length, map, option_map};
ghost use Rattle.raft_log_model_laws.specs.Meaning.Slot.{Index, Key};
ghost use Rattle.raft_log_model_laws.specs.Meaning.Content.{Entry, Value};
ghost use Rattle.raft_log_world.specs.Reads.{
  all_bytes,
  bytes_of,
  AreFetched,
  Fetches,
  HasEntries,
  HasNone,
  IsCount,
  IsFirstIndex,
  IsLastIndex,
};
ghost use Rattle.raft_log_judge.specs.Changes.{item_of, tagged};
ghost use Rattle.raft_log_judge.specs.Contents.{after_all, AllGone, HasAll, IsBefore, IsGone, NoneIn};
ghost use Rattle.raft_log_judge.specs.Views.{IsRead};

use crate::change::{Batch, Change, ChangeKind};
use crate::content::{is_entry, is_value};
use crate::scanning::is_scan;
use raft_log_world::{Answer, Call, Event};

/// Whether this event, as a read of the contents after all batches, returns this answer.
pub fn is_read<C>(batches: &[Batch], event: &Event<Batch, C>, answer: &Answer) -> bool
    ensures { IsTrue result ↔ IsRead (after_all batches.now) event.now answer.now }
{
    let Event::Serve(call) = event else {
        return false;
    };
    match (call, answer) {
        (Call::Get { group, key }, Answer::Found(value)) => {
            has_value(batches, *group, key.as_slice(), value)
        }
        (Call::GetEntry { group, index }, Answer::Found(entry)) => {
            has_entry(batches, *group, *index, entry)
        }
        (Call::FirstIndex { group }, Answer::At(index)) => is_first(batches, *group, index),
        (Call::LastIndex { group }, Answer::At(index)) => is_last(batches, *group, index),
        (
            Call::Fetch {
                group,
                begin,
                end,
                max,
            },
            Answer::Entries(entries),
        ) => is_fetch(batches, *group, *begin, *end, max, entries.as_slice()),
        (Call::Scan { group, start, end }, Answer::Keys(pairs)) => {
            is_scan(batches, *group, start, end, pairs.as_slice())
        }
        _ => false,
    }
}

/// Whether a group's key has this value.
fn has_value(batches: &[Batch], group: u64, key: &[u8], value: &Option<Vec<u8>>) -> bool
    ensures { IsTrue result ↔ (after_all batches.now group (Key key.now) ≡ option_map Value (bytes_of value.now)) }
{
    match value {
        Some(bytes) => value_is(batches, group, key, bytes.as_slice()),
        None => value_is_none(batches, group, key),
    }
}

/// Whether a group has this entry at an index.
fn has_entry(batches: &[Batch], group: u64, index: u64, entry: &Option<Vec<u8>>) -> bool
    ensures { IsTrue result ↔ (after_all batches.now group (Index index) ≡ option_map Entry (bytes_of entry.now)) }
{
    match entry {
        Some(bytes) => entry_is(batches, group, index, bytes.as_slice()),
        None => entry_is_none(batches, group, index as u128),
    }
}

/// Whether a group's key has these bytes.
pub fn value_is(batches: &[Batch], group: u64, key: &[u8], bytes: &[u8]) -> bool
    ensures { IsTrue result ↔ (after_all batches.now group (Key key.now) ≡ Some (Value bytes.now)) }
{
    is_value(batches, group, key, true, bytes)
}

/// Whether a group's key has no value.
pub fn value_is_none(batches: &[Batch], group: u64, key: &[u8]) -> bool
    ensures { IsTrue result ↔ (after_all batches.now group (Key key.now) ≡ None) }
{
    is_value(batches, group, key, false, key)
}

/// Whether a group's entry at an index has these bytes.
fn entry_is(batches: &[Batch], group: u64, index: u64, bytes: &[u8]) -> bool
    ensures { IsTrue result ↔ (after_all batches.now group (Index index) ≡ Some (Entry bytes.now)) }
{
    is_entry(batches, group, index as u128, true, bytes)
}

/// Whether a group has no entry at an index.
fn entry_is_none(batches: &[Batch], group: u64, index: u128) -> bool
    ensures { IsTrue result ↔ (after_all batches.now group (Index index) ≡ None) }
{
    is_entry(batches, group, index, false, b"".as_slice())
}

/// Whether a read of a group's first index returns this.
fn is_first(batches: &[Batch], group: u64, index: &Option<u64>) -> bool
    ensures { IsTrue result ↔ IsFirstIndex (after_all batches.now) group index.now }
{
    match index {
        Some(first) => {
            if entry_is_none(batches, group, *first as u128) {
                return false;
            }
            has_none(batches, group, 0, Some(*first))
        }
        None => has_none(batches, group, 0, None),
    }
}

/// Whether a read of a group's last index returns this.
fn is_last(batches: &[Batch], group: u64, index: &Option<u64>) -> bool
    ensures { IsTrue result ↔ IsLastIndex (after_all batches.now) group index.now }
{
    match index {
        Some(last) => {
            if entry_is_none(batches, group, *last as u128) {
                return false;
            }
            has_none(batches, group, *last as u128 + 1, None)
        }
        None => has_none(batches, group, 0, None),
    }
}

/// Whether a fetch of a group's entries returns these.
fn is_fetch(
    batches: &[Batch],
    group: u64,
    begin: u64,
    end: u64,
    max: &Option<u64>,
    entries: &[Vec<u8>],
) -> bool
    ensures { IsTrue result ↔ Fetches (after_all batches.now) group begin end max.now (all_bytes entries.now) }
{
    if entries.is_empty() && has_none(batches, group, begin as u128, Some(end)) {
        return true;
    }
    are_fetched(batches, group, begin, end, max, entries)
}

/// Whether a group has an entry at each index from `begin` on, below `end`, and these are the first of them.
fn are_fetched(
    batches: &[Batch],
    group: u64,
    begin: u64,
    end: u64,
    max: &Option<u64>,
    entries: &[Vec<u8>],
) -> bool
    ensures { IsTrue result ↔ AreFetched (after_all batches.now) group begin end max.now (all_bytes entries.now) }
{
    if !is_count(max, end.saturating_sub(begin), entries.len() as u64) {
        return false;
    }
    if !has_entries(batches, group, begin, entries) {
        return false;
    }
    has_all(batches, group, begin, end)
}

/// Whether a read may return `count` of `all` entries.
fn is_count(max: &Option<u64>, all: u64, count: u64) -> bool
    ensures { IsTrue result ↔ IsCount max.now all count }
{
    match max {
        Some(_) => count <= all && (all == 0 || count > 0),
        None => count == all,
    }
}

/// Whether a group has these entries from an index on.
fn has_entries(batches: &[Batch], group: u64, begin: u64, entries: &[Vec<u8>]) -> bool
    requires { begin + length entries.now < 2 ^ 64 }
    ensures { IsTrue result ↔ HasEntries (after_all batches.now) group begin (all_bytes entries.now) }
{
    let mut index = begin;
    for entry in entries {
        if !entry_is(batches, group, index, entry.as_slice()) {
            return false;
        }
        index += 1;
    }
    true
}

/// Whether a group has an entry at each index from `begin` on, below `end`.
fn has_all(batches: &[Batch], group: u64, begin: u64, end: u64) -> bool
    ensures { IsTrue result ↔ HasAll (after_all batches.now) group begin end }
{
    for index in begin..end {
        if entry_is_none(batches, group, index as u128) {
            return false;
        }
    }
    true
}

/// Whether a group has no entry from `begin` on, below `end` if there is one. Only indexes of entries that were written
/// are tried.
fn has_none(batches: &[Batch], group: u64, begin: u128, end: Option<u64>) -> bool
    ensures { IsTrue result ↔ NoneIn (after_all batches.now) group begin end }
{
    for batch in batches {
        if !are_gone(batches, batch.as_slice(), group, begin, end) {
            return false;
        }
    }
    true
}

/// Whether the entries within these bounds that a batch wrote don't exist any more.
fn are_gone(
    batches: &[Batch],
    changes: &[Change],
    group: u64,
    begin: u128,
    end: Option<u64>,
) -> bool
    ensures { IsTrue result ↔ AllGone (after_all batches.now) group begin end (map tagged changes.now) }
{
    for change in changes {
        if change.group == group && !is_gone(batches, &change.kind, group, begin, end) {
            return false;
        }
    }
    true
}

/// Whether the entries within these bounds that a change wrote don't exist any more.
fn is_gone(batches: &[Batch], kind: &ChangeKind, group: u64, begin: u128, end: Option<u64>) -> bool
    ensures { IsTrue result ↔ IsGone (after_all batches.now) group begin end (item_of kind.now) }
{
    let ChangeKind::Entries { first, entries } = kind else {
        return true;
    };
    let first = *first as u128;
    let low = if begin < first { first } else { begin };
    let high = lower(first + entries.len() as u128, end);
    none_between(batches, group, low, high)
}

/// The lower of both ends; the first if there is no second one.
fn lower(past: u128, end: Option<u64>) -> u128
    ensures below { (index : ℕ) → index < result → (index < past) × IsBefore end index }
    ensures all { (index : ℕ) → index < past → IsBefore end index → index < result }
{
    match end {
        Some(end) if (end as u128) < past => end as u128,
        _ => past,
    }
}

/// Whether a group has no entry from `begin` on, below `end`. Each index is tried.
fn none_between(batches: &[Batch], group: u64, begin: u128, end: u128) -> bool
    ensures { IsTrue result ↔ HasNone (after_all batches.now) group begin end }
{
    for index in begin..end {
        if !entry_is_none(batches, group, index) {
            return false;
        }
    }
    true
}
