//! Whether a scan returned what a log has.
ghost use Rattle.std.specs.Prelude.{◌≡◌, ◌↔◌, ◌&&◌, IsTrue, map, bytes_eq, is_some};
ghost use Rattle.std.specs.Cmp.Lexicographic.{slice_cmp};
ghost use Rattle.std.specs.List.Sorted.{IsStrictlySortedBy};
ghost use Rattle.std.specs.Map.{keys_of, lookup};
ghost use Rattle.std.specs.Ordering.{nat_cmp};
ghost use Rattle.raft_log_world.specs.Reads.{bytes_of, is_below, is_from, pairs_of, Scans};
ghost use Rattle.raft_log_judge.specs.Changes.{item_of, tagged};
ghost use Rattle.raft_log_judge.specs.Contents.{after_all, IsListed, ListsPut, ListsPuts};
ghost use Rattle.raft_log_judge.specs.Scanned.{AreBelow, AreRight, IsRight};

use crate::change::{Batch, Change, ChangeKind};
use crate::reading::{value_is, value_is_none};
use std::cmp::Ordering;

/// Whether a scan of a group's keys within these bounds returns these pairs.
pub fn is_scan(
    batches: &[Batch],
    group: u64,
    start: &Option<Vec<u8>>,
    end: &Option<Vec<u8>>,
    pairs: &[(Vec<u8>, Vec<u8>)],
) -> bool
    ensures { IsTrue result ↔ Scans (after_all batches.now) group (bytes_of start.now) (bytes_of end.now)
        (pairs_of pairs.now) }
{
    if !are_rising(pairs) {
        return false;
    }
    if !are_right(batches, group, start, end, pairs) {
        return false;
    }
    for batch in batches {
        if !lists_puts(batches, batch.as_slice(), group, start, end, pairs) {
            return false;
        }
    }
    true
}

/// Whether each key is below those after it.
fn are_rising(pairs: &[(Vec<u8>, Vec<u8>)]) -> bool
    ensures { IsTrue result ↔ IsStrictlySortedBy (slice_cmp nat_cmp) (keys_of (pairs_of pairs.now)) }
{
    let mut rest = pairs;
    while let Some((pair, later)) = rest.split_first() {
        if !is_below_all(pair.0.as_slice(), later) {
            return false;
        }
        rest = later;
    }
    true
}

/// Whether a key is below all these.
fn is_below_all(key: &[u8], pairs: &[(Vec<u8>, Vec<u8>)]) -> bool
    ensures { IsTrue result ↔ AreBelow key.now (keys_of (pairs_of pairs.now)) }
{
    for pair in pairs {
        if key.cmp(pair.0.as_slice()) != Ordering::Less {
            return false;
        }
    }
    true
}

/// Whether these keys are within the bounds, and have these values.
fn are_right(
    batches: &[Batch],
    group: u64,
    start: &Option<Vec<u8>>,
    end: &Option<Vec<u8>>,
    pairs: &[(Vec<u8>, Vec<u8>)],
) -> bool
    ensures { IsTrue result ↔ AreRight (after_all batches.now) group (bytes_of start.now) (bytes_of end.now)
        (pairs_of pairs.now) }
{
    for pair in pairs {
        if !is_within(pair.0.as_slice(), start, end) {
            return false;
        }
        if !value_is(batches, group, pair.0.as_slice(), pair.1.as_slice()) {
            return false;
        }
    }
    true
}

/// Whether a key is within the bounds.
fn is_within(key: &[u8], start: &Option<Vec<u8>>, end: &Option<Vec<u8>>) -> bool
    ensures { result ≡ (is_from (bytes_of start.now) key.now && is_below (bytes_of end.now) key.now) }
{
    is_from(key, start) && is_below(key, end)
}

/// Whether a key is at or above a start.
fn is_from(key: &[u8], start: &Option<Vec<u8>>) -> bool
    ensures { result ≡ is_from (bytes_of start.now) key.now }
{
    match start {
        Some(start) => start.as_slice().cmp(key) != Ordering::Greater,
        None => true,
    }
}

/// Whether a key is below an end.
fn is_below(key: &[u8], end: &Option<Vec<u8>>) -> bool
    ensures { result ≡ is_below (bytes_of end.now) key.now }
{
    match end {
        Some(end) => key.cmp(end.as_slice()) == Ordering::Less,
        None => true,
    }
}

/// Whether each key within the bounds that a batch put has no value, or is among the pairs.
fn lists_puts(
    batches: &[Batch],
    changes: &[Change],
    group: u64,
    start: &Option<Vec<u8>>,
    end: &Option<Vec<u8>>,
    pairs: &[(Vec<u8>, Vec<u8>)],
) -> bool
    ensures { IsTrue result ↔ ListsPuts (after_all batches.now) group (bytes_of start.now) (bytes_of end.now)
        (pairs_of pairs.now) (map tagged changes.now) }
{
    for change in changes {
        if change.group == group && !lists_put(batches, &change.kind, group, start, end, pairs) {
            return false;
        }
    }
    true
}

/// Whether that is so of the key that a change puts.
fn lists_put(
    batches: &[Batch],
    kind: &ChangeKind,
    group: u64,
    start: &Option<Vec<u8>>,
    end: &Option<Vec<u8>>,
    pairs: &[(Vec<u8>, Vec<u8>)],
) -> bool
    ensures { IsTrue result ↔ ListsPut (after_all batches.now) group (bytes_of start.now) (bytes_of end.now)
        (pairs_of pairs.now) (item_of kind.now) }
{
    match kind {
        ChangeKind::Put { key, .. } => is_listed(batches, key.as_slice(), group, start, end, pairs),
        _ => true,
    }
}

/// Whether a key is outside the bounds, or has no value, or is among the pairs.
fn is_listed(
    batches: &[Batch],
    key: &[u8],
    group: u64,
    start: &Option<Vec<u8>>,
    end: &Option<Vec<u8>>,
    pairs: &[(Vec<u8>, Vec<u8>)],
) -> bool
    ensures { IsTrue result ↔ IsListed (after_all batches.now) group (bytes_of start.now) (bytes_of end.now)
        (pairs_of pairs.now) key.now }
{
    if !is_within(key, start, end) {
        return true;
    }
    if value_is_none(batches, group, key) {
        return true;
    }
    is_among(key, pairs)
}

/// Whether a key is among the pairs.
fn is_among(key: &[u8], pairs: &[(Vec<u8>, Vec<u8>)]) -> bool
    ensures { result ≡ is_some (lookup (bytes_eq key.now) (pairs_of pairs.now)) }
{
    for pair in pairs {
        if key == pair.0.as_slice() {
            return true;
        }
    }
    false
}
