//! Copies entries from runs, a run at a time.
ghost use Rattle.std.specs.Prelude.{◌≡◌, ℕ, ◌+◌, ◌*◌, ◌≤◌, ◌<◌, ◌^◌, ◌++◌, [], false, true, length, take, drop, vec_len, vec_capacity};
ghost use Rattle.std.specs.VecDeque.{deque_len};
ghost use Rattle.raft_log_extents.specs.Entries.{entries_of};
ghost use Rattle.raft_log_extents.specs.Runs.{counts, laid};
ghost use Rattle.raft_log_extents.specs.Words.{whole_places};

use super::bounds::starts_from;
use super::{Runs, find};
use crate::words::{place_in_deque, place_in_slice};
use crate::{Run, entry_of};
use raft_log_record_base::LogQueue;
use raft_log_record_items::EntryIndex;
use std::collections::VecDeque;

impl Runs {
    ghost use Rattle.raft_log_extents.specs.RunLists.{places};

    /// Adds the entries of `count` places from this position on. The places must be there, and the vector must have
    /// room. The entries are in files of this queue, and the first has this index. Their indexes must be below
    /// 2^64 - 1. After one search, the time is linear in `count`.
    pub fn copy_entries(
        &self,
        queue: LogQueue,
        index: u64,
        position: usize,
        count: usize,
        entries: &mut Vec<EntryIndex>,
    )
        requires within { position + count ≤ length (places self.now) }
        requires indexes { index + count < 2 ^ 64 }
        requires room { vec_len entries.old + count ≤ vec_capacity entries.old }
        ensures items { entries.new.items ≡ entries.old.items
            ++ entries_of queue index (take count (drop position (places self.now))) }
        ensures len { vec_len entries.new ≡ vec_len entries.old + count }
        ensures capacity { vec_capacity entries.new ≡ vec_capacity entries.old }
    {
        if count == 0 {
            return;
        }
        let number = self.front + position;
        let mut at = find(&self.runs, number, 0);
        let mut within = number - self.runs[at].first;
        let mut done = 0;
        while done < count {
            let index = index + done as u64;
            let more = self.copy_run(at, within, count - done, queue, index, entries);
            done += more;
            (at, within) = self.next_place(at, within + more);
        }
    }

    /// Where the entry after the first `within` ones of this run is: in the run, or the first of the next one.
    fn next_place(&self, at: usize, within: usize) -> (usize, usize)
        requires there { at < deque_len self.now.runs }
        requires within { counts (take at self.now.runs.items) + within
            ≤ counts (take (at + 1) self.now.runs.items) }
        ensures same { counts (take result.0 self.now.runs.items) + result.1
            ≡ counts (take at self.now.runs.items) + within }
        ensures there { counts (take at self.now.runs.items) + within < self.now.len
            → (result.0 < deque_len self.now.runs) × (counts (take result.0 self.now.runs.items) + result.1
            < counts (take (result.0 + 1) self.now.runs.items)) }
    {
        if within == self.runs[at].total() {
            return (at + 1, 0);
        }
        (at, within)
    }

    /// Adds entries of this run after the first `within` ones, at most `limit`, and returns how many: those in its
    /// block, or some of those that are alone.
    fn copy_run(
        &self,
        at: usize,
        within: usize,
        limit: usize,
        queue: LogQueue,
        index: u64,
        entries: &mut Vec<EntryIndex>,
    ) -> usize
        requires there { at < deque_len self.now.runs }
        requires within { counts (take at self.now.runs.items) + within
            < counts (take (at + 1) self.now.runs.items) }
        requires some { 0 < limit }
        requires indexes { index + limit < 2 ^ 64 }
        requires room { vec_len entries.old + limit ≤ vec_capacity entries.old }
        ensures count { (0 < result) × (result ≤ limit) }
        ensures end { counts (take at self.now.runs.items) + within + result
            ≤ counts (take (at + 1) self.now.runs.items) }
        ensures items { entries.new.items ≡ entries.old.items ++ entries_of queue index
            (take result (drop (counts (take at self.now.runs.items) + within) (places self.now))) }
        ensures len { vec_len entries.new ≡ vec_len entries.old + result }
        ensures capacity { vec_capacity entries.new ≡ vec_capacity entries.old }
    {
        let run = &self.runs[at];
        let from = run.at - self.base;
        if run.count <= within {
            let count = limit.min(run.total() - within);
            return self.copy_alone(from + run.span(within), count, queue, index, entries);
        }
        let count = limit.min(run.count - within);
        if run.even {
            push_even(run, within, count, queue, index, entries);
        } else {
            push_uneven(
                run,
                &self.starts,
                from,
                within,
                count,
                queue,
                index,
                entries,
            );
        }
        count
    }

    /// Adds the first of `count` entries that are alone in their blocks; their places are in the starts from `from` on.
    /// Returns how many: at least one, up to where the deque wraps to the front of its buffer.
    fn copy_alone(
        &self,
        from: usize,
        count: usize,
        queue: LogQueue,
        index: u64,
        entries: &mut Vec<EntryIndex>,
    ) -> usize
        requires there { (0 < count) × (from + count * 8 ≤ length self.now.starts.items) }
        requires indexes { index + count < 2 ^ 64 }
        requires room { vec_len entries.old + count ≤ vec_capacity entries.old }
        ensures count { (0 < result) × (result ≤ count) }
        ensures items { entries.new.items ≡ entries.old.items
            ++ entries_of queue index (whole_places result (drop from self.now.starts.items)) }
        ensures sizes { (vec_len entries.new ≡ vec_len entries.old + result)
            × (vec_capacity entries.new ≡ vec_capacity entries.old) }
    {
        let words = starts_from(&self.starts, from, count * 8);
        let more = words.len() / 8;
        if more == 0 {
            let place = place_in_deque(&self.starts, from);
            entries.push_reserved(entry_of(queue, index, place));
            return 1;
        }
        push_whole(words, more, queue, index, entries);
        more
    }
}

/// Adds the entries at the first `count` places that these numbers encode.
fn push_whole(
    words: &[u32],
    count: usize,
    queue: LogQueue,
    index: u64,
    entries: &mut Vec<EntryIndex>,
)
    requires there { count * 8 ≤ length words.now }
    requires indexes { index + count < 2 ^ 64 }
    requires room { vec_len entries.old + count ≤ vec_capacity entries.old }
    ensures items { entries.new.items ≡ entries.old.items
        ++ entries_of queue index (whole_places count words.now) }
    ensures len { vec_len entries.new ≡ vec_len entries.old + count }
    ensures capacity { vec_capacity entries.new ≡ vec_capacity entries.old }
{
    for i in 0..count {
        let place = place_in_slice(words, i * 8);
        entries.push_reserved(entry_of(queue, index + i as u64, place));
    }
}

/// Adds `count` entries of a run after the first `within` ones, if all have one length.
fn push_even(
    run: &Run,
    within: usize,
    count: usize,
    queue: LogQueue,
    index: u64,
    entries: &mut Vec<EntryIndex>,
)
    requires within { within + count ≤ run.now.count }
    requires fits { (j : ℕ) → j < run.now.count → run.now.start + j * run.now.size < 2 ^ 32 }
    requires indexes { index + count < 2 ^ 64 }
    requires room { vec_len entries.old + count ≤ vec_capacity entries.old }
    ensures items { entries.new.items ≡ entries.old.items
        ++ entries_of queue index (take count (drop within (laid true run.now []))) }
    ensures len { vec_len entries.new ≡ vec_len entries.old + count }
    ensures capacity { vec_capacity entries.new ≡ vec_capacity entries.old }
{
    for i in 0..count {
        let offset = run.start as u64 + (within + i) as u64 * run.size as u64;
        let place = run.place(offset as u32, run.size);
        entries.push_reserved(entry_of(queue, index + i as u64, place));
    }
}

/// Adds `count` entries, at least one, of a run with different lengths, after the first `within` ones. Its first start
/// is at this position, and each start is read once.
fn push_uneven(
    run: &Run,
    starts: &VecDeque<u32>,
    from: usize,
    within: usize,
    count: usize,
    queue: LogQueue,
    index: u64,
    entries: &mut Vec<EntryIndex>,
)
    requires within { within + count ≤ run.now.count }
    requires some { 0 < count }
    requires there { from + run.now.count ≤ length starts.now.items }
    requires indexes { index + count < 2 ^ 64 }
    requires room { vec_len entries.old + count ≤ vec_capacity entries.old }
    ensures items { entries.new.items ≡ entries.old.items
        ++ entries_of queue index (take count (drop within (laid false run.now (drop from starts.now.items)))) }
    ensures len { vec_len entries.new ≡ vec_len entries.old + count }
    ensures capacity { vec_capacity entries.new ≡ vec_capacity entries.old }
{
    let first = from + within;
    let inner = count.min(run.count - within - 1);
    let mut start = starts[first];
    for i in 0..inner {
        let end = starts[first + i + 1];
        let place = run.place(start, end.saturating_sub(start));
        entries.push_reserved(entry_of(queue, index + i as u64, place));
        start = end;
    }
    if inner < count {
        let place = run.place(start, run.size);
        entries.push_reserved(entry_of(queue, index + inner as u64, place));
    }
}
