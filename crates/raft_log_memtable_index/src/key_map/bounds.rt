//! Bounds of the keys that a scan walks.
ghost use Rattle.std.specs.Prelude.{◌≡◌, IfSome, Some, option_copied};
ghost use Rattle.raft_log_memtable_index.specs.Bounds.{below_bound, from_bound, later_end, IsBoundAround};

use std::alloc::Global;
use std::ops::Bound;

/// Bounds around the keys that aren't below the start and are below the end, if these are given. If there is no memory
/// for a bound, it is left out, and more keys are walked.
pub(super) fn bounds(
    alloc: Global,
    start: Option<&[u8]>,
    end: Option<&[u8]>,
) -> (Bound<Vec<u8>>, Bound<Vec<u8>>)
    ensures { IsBoundAround (λ v. v.items) (option_copied start.entry) (option_copied end.entry) result }
{
    let from = copied(alloc, start);
    let below = copied(alloc, later_end(start, end));
    (from_bound(from), below_bound(below))
}

/// The end, or the start if the end is below it: then no key is between them.
fn later_end<'a>(start: Option<&'a [u8]>, end: Option<&'a [u8]>) -> Option<&'a [u8]>
    ensures { option_copied result ≡ later_end (option_copied start.entry) (option_copied end.entry) }
{
    match (start, end) {
        (Some(start), Some(end)) if start.cmp(end).is_gt() => Some(start),
        (_, end) => end,
    }
}

/// A copy of these bytes, if there are some and there is memory for it.
fn copied(alloc: Global, bytes: Option<&[u8]>) -> Option<Vec<u8>>
    ensures { IfSome result (λ v. option_copied bytes.entry ≡ Some v.items) }
{
    match bytes {
        Some(bytes) => bytes.to_vec(alloc).ok(),
        None => None,
    }
}

/// The keys from this one on, if there is one.
fn from_bound(key: Option<Vec<u8>>) -> Bound<Vec<u8>>
    ensures { result ≡ from_bound key }
{
    match key {
        Some(key) => Bound::Included(key),
        None => Bound::Unbounded,
    }
}

/// The keys below this one, if there is one.
fn below_bound(key: Option<Vec<u8>>) -> Bound<Vec<u8>>
    ensures { result ≡ below_bound key }
{
    match key {
        Some(key) => Bound::Excluded(key),
        None => Bound::Unbounded,
    }
}
