//! Where consecutive entries of a run start and end.
ghost use Rattle.std.specs.Prelude.{◌≡◌, ℕ, ◌+◌, ◌*◌, ◌-◌, ◌≤◌, ◌<◌, ◌^◌, [], ◌∷◌, false, true, length, take, drop};
ghost use Rattle.raft_log_extents.specs.Blocks.{between};
ghost use Rattle.raft_log_extents.specs.Bounds.{bounds_of, AreShort};
ghost use Rattle.raft_log_extents.specs.Runs.{block, laid};
ghost use Rattle.raft_log_extents.specs.Words.{place_from};

use super::{Runs, find};
use crate::words::place_in_deque;
use crate::{Bounds, Place, Run};
use std::collections::VecDeque;

impl Runs {
    ghost use Rattle.raft_log_extents.specs.RunLists.{places};

    /// Finds entries from this position on that follow one another in one block: at least one, and at most `limit`.
    /// That many must be there. Returns their block, with 0 as offset and length of an entry, and where each of them
    /// starts and ends there. Nothing is copied. The run is looked for at the hint first; then the hint is the next
    /// run, or the same if entries came alone after it.
    pub fn bounds(&self, position: usize, limit: usize, hint: &mut usize) -> (Place, Bounds<'_>)
        requires within { position + limit ≤ length (places self.now) }
        requires some { 0 < limit }
        ensures places { between result.0 (bounds_of result.1)
            ≡ take (length (bounds_of result.1) - 1) (drop position (places self.now)) }
        ensures count { (1 < length (bounds_of result.1)) × (length (bounds_of result.1) ≤ limit + 1) }
        ensures short { AreShort result.1 }
    {
        let number = self.front + position;
        let at = find(&self.runs, number, *hint);
        let run = &self.runs[at];
        *hint = next_hint(run, at);
        let within = number - run.first;
        let from = run.at - self.base;
        if run.count <= within {
            return alone_bounds(&self.starts, from + run.span(within));
        }
        let count = limit.min(run.count - within);
        let block = run.place(0, 0);
        let bounds = if run.even {
            even_bounds(run, within, count)
        } else {
            uneven_bounds(run, &self.starts, from, within, count)
        };
        (block, bounds)
    }
}

/// The run that has the entries after those of a run at this position: it may be the same if entries came alone.
fn next_hint(run: &Run, at: usize) -> usize
    requires { at + 1 < 2 ^ 64 }
    ensures { (at ≤ result) × (result ≤ at + 1) }
{
    if run.alone == 0 { at + 1 } else { at }
}

/// The block of an entry alone in it, whose place is in the starts at this position, and where it starts and ends.
fn alone_bounds<'a>(starts: &VecDeque<u32>, at: usize) -> (Place, Bounds<'a>)
    requires { at + 8 ≤ length starts.now.items }
    ensures places { between result.0 (bounds_of result.1) ≡ place_from (drop at starts.now.items) ∷ [] }
    ensures len { length (bounds_of result.1) ≡ 2 }
    ensures short { AreShort result.1 }
{
    let place = place_in_deque(starts, at);
    let bounds = Bounds::Even {
        start: place.entry_offset as u64,
        size: place.entry_len,
        count: 1,
    };
    let mut block = place;
    block.entry_offset = 0;
    block.entry_len = 0;
    (block, bounds)
}

/// Where `count` entries of a run start and end, after the first `within` ones, if all have one length.
fn even_bounds<'a>(run: &'a Run, within: usize, count: usize) -> Bounds<'a>
    requires within { within + count ≤ run.now.count }
    requires fits { (j : ℕ) → j < run.now.count → run.now.start + j * run.now.size < 2 ^ 32 }
    requires some { 0 < count }
    ensures places { between (block run.now) (bounds_of result)
        ≡ take (length (bounds_of result) - 1) (drop within (laid true run.now [])) }
    ensures len { length (bounds_of result) ≡ count + 1 }
    ensures short { AreShort result }
{
    let size = run.size;
    let start = run.start as u64 + within as u64 * size as u64;
    Bounds::Even { start, size, count }
}

/// Where entries of a run with different lengths start and end, after the first `within` ones: at least one and at most
/// `count`. The run's first start is at this position.
fn uneven_bounds<'a>(
    run: &Run,
    starts: &'a VecDeque<u32>,
    from: usize,
    within: usize,
    count: usize,
) -> Bounds<'a>
    requires within { within + count ≤ run.now.count }
    requires there { from + run.now.count ≤ length starts.now.items }
    requires some { 0 < count }
    ensures places { between (block run.now) (bounds_of result)
        ≡ take (length (bounds_of result) - 1) (drop within (laid false run.now (drop from starts.now.items))) }
    ensures len { (1 < length (bounds_of result)) × (length (bounds_of result) ≤ count + 1) }
    ensures short { AreShort result }
{
    let part = starts_from(starts, from + within, count);
    let behind = within + part.len();
    let end = if behind < run.count {
        starts[from + behind] as u64
    } else {
        part[part.len() - 1] as u64 + run.size as u64
    };
    Bounds::Uneven { starts: part, end }
}

/// The first of `count` starts from this position on: up to where the deque wraps to the front of its buffer.
pub(super) fn starts_from<'a>(starts: &'a VecDeque<u32>, from: usize, count: usize) -> &'a [u32]
    requires there { from + count ≤ length starts.now.items }
    requires some { 0 < count }
    ensures items { result.now ≡ take (length result.now) (drop from starts.now.items) }
    ensures count { (0 < length result.now) × (length result.now ≤ count) }
{
    let (front, back) = starts.as_slices();
    let seam = front.len();
    if from < seam {
        &front[from..seam.min(from + count)]
    } else {
        let first = from - seam;
        &back[first..first + count]
    }
}
