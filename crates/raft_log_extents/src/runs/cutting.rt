//! Cuts runs in two, replaces and joins them.
ghost use Rattle.std.specs.Prelude.{◌≡◌, ℕ, ◌+◌, ◌-◌, ◌≤◌, ◌<◌, ◌^◌, ◌++◌, ◌∷◌, length, map, max, take, drop};
ghost use Rattle.std.specs.VecDeque.{deque_capacity, deque_len};
ghost use Rattle.raft_log_extents.specs.Entries.{place_of};
ghost use Rattle.raft_log_extents.specs.Blocks.{pieces};
ghost use Rattle.raft_log_extents.specs.Runs.{counts, renumbered, width, total, widths, IsNumbered};

use super::pieces::push_pieces;
use super::{Runs, place_in};
use crate::Run;
use raft_log_record_items::EntryIndex;
use std::collections::VecDeque;

impl Runs {
    ghost use Rattle.raft_log_extents.specs.RunLists.{places, HasRoom};

    /// Replaces as many places, from this position on, with those of these entries. The old places must be there, and
    /// there must be room for twice as many entries.
    pub fn replace(&mut self, position: usize, entries: &[EntryIndex])
        requires within { position + length entries.now ≤ length (places self.old) }
        requires room { HasRoom self.old (length entries.now + length entries.now) }
        ensures items { places self.new ≡ take position (places self.old)
            ++ (map place_of entries.now ++ drop (position + length entries.now) (places self.old)) }
        ensures runs { deque_len self.new.runs
            ≤ deque_len self.old.runs + (pieces (map place_of entries.now) + 1) }
        ensures room { (m : ℕ) → HasRoom self.old (length entries.now + length entries.now + m)
            → HasRoom self.new m }
    {
        if entries.len() == 0 {
            return;
        }
        let before = self.cut(position);
        let end = self.cut(position + entries.len());
        self.replace_runs(position, before, end, entries);
    }

    /// Replaces as many places, from this position on, with those of these entries. The old places are the runs from
    /// `before` up to `end`.
    ///
    /// The time is linear in the old and the new runs, and in the runs and starts on one side of them, which move. If
    /// the number of starts changes, the starts of runs are numbered anew.
    fn replace_runs(&mut self, position: usize, before: usize, end: usize, entries: &[EntryIndex])
        requires within { (before < end) × (end ≤ deque_len self.old.runs) }
        requires start { counts (take before self.old.runs.items) ≡ position }
        requires stop { counts (take end self.old.runs.items) ≡ position + length entries.now }
        requires runs { deque_len self.old.runs + length entries.now
            ≤ deque_capacity self.old.runs + 1 }
        requires starts { deque_len self.old.starts + length entries.now
            ≤ deque_capacity self.old.starts }
        requires numbers { self.old.base + deque_len self.old.starts + length entries.now < 2 ^ 64 }
        ensures items { places self.new ≡ take position (places self.old)
            ++ (map place_of entries.now ++ drop (position + length entries.now) (places self.old)) }
        ensures runs { deque_len self.new.runs + 1
            ≤ deque_len self.old.runs + pieces (map place_of entries.now) }
        ensures starts { deque_len self.new.starts
            ≤ deque_len self.old.starts + length entries.now }
        ensures capacities { (deque_capacity self.new.runs ≡ deque_capacity self.old.runs)
            × (deque_capacity self.new.starts ≡ deque_capacity self.old.starts) }
        ensures numbers { (self.new.front ≡ self.old.front) × (self.new.len ≡ self.old.len)
            × (self.new.base + deque_len self.new.starts
            ≤ self.old.base + deque_len self.old.starts + length entries.now) }
    {
        let from = self.starts_before(before);
        let to = self.starts_before(end);
        turn_out(&mut self.runs, before, end);
        turn_out(&mut self.starts, from, to);
        let runs = self.runs.len();
        let starts = self.starts.len();
        let first = self.front + position;
        let at = self.base + from;
        push_pieces(&mut self.runs, &mut self.starts, entries, first, at);
        let last = before + (self.runs.len() - runs);
        let stop = from + (self.starts.len() - starts);
        self.runs.rotate_right(last);
        self.starts.rotate_right(stop);
        self.base = number_anew(&mut self.runs, last, self.front, self.base, stop, to);
    }

    /// Appends more places, for which there must be room.
    pub fn append(&mut self, more: Runs)
        requires { HasRoom self.old (length (places more)) }
        ensures items { places self.new ≡ places self.old ++ places more }
        ensures runs { deque_len self.new.runs ≡ deque_len self.old.runs + deque_len more.runs }
        ensures starts { deque_len self.new.starts ≡ deque_len self.old.starts + deque_len more.starts }
        ensures room { (m : ℕ) → HasRoom self.old (length (places more) + m) → HasRoom self.new m }
    {
        let first = self.front + self.len;
        let at = self.base + self.starts.len();
        let Runs {
            runs,
            starts,
            len,
            ..
        } = more;
        move_runs(&mut self.runs, &runs, first, at);
        move_starts(&mut self.starts, &starts);
        self.len += len;
    }

    /// Cuts the run in two if the entry at this position isn't its first one. Returns how many runs are before it.
    fn cut(&mut self, position: usize) -> usize
        requires within { position ≤ length (places self.old) }
        requires room { deque_len self.old.runs < deque_capacity self.old.runs }
        ensures items { places self.new ≡ places self.old }
        ensures runs { deque_len self.new.runs ≤ deque_len self.old.runs + 1 }
        ensures within { result ≤ deque_len self.new.runs }
        ensures end { counts (take result self.new.runs.items) ≡ position }

        // the first runs that ended at or before the position still end at the same places
        ensures ends { (k : ℕ) → counts (take k self.old.runs.items) ≤ position
            → counts (take k self.new.runs.items) ≡ counts (take k self.old.runs.items) }
        ensures capacity { deque_capacity self.new.runs ≡ deque_capacity self.old.runs }
        ensures rest { (self.new.starts ≡ self.old.starts) × (self.new.front ≡ self.old.front)
            × (self.new.len ≡ self.old.len) × (self.new.base ≡ self.old.base) }
    {
        if position == self.len {
            return self.runs.len();
        }
        let spot = self.spot(position, 0);
        if spot.within == 0 {
            return spot.at;
        }
        let last = place_in(&spot.run, &self.starts, spot.from, spot.within - 1);
        let next = place_in(&spot.run, &self.starts, spot.from, spot.within);
        let head = spot.run.head(spot.within, last.entry_len);
        let tail = spot.run.tail(spot.within, next.entry_offset);
        split_run(&mut self.runs, spot.at, head, tail);
        spot.at + 1
    }

    /// How many starts the first `count` runs have.
    fn starts_before(&self, count: usize) -> usize
        requires { count ≤ deque_len self.now.runs }
        ensures { result ≡ widths (take count self.now.runs.items) }
    {
        if count == self.runs.len() {
            return self.starts.len();
        }
        self.runs[count].at - self.base
    }
}

/// Replaces the run at this position with these two.
fn split_run(runs: &mut VecDeque<Run>, at: usize, head: Run, tail: Run)
    requires at { at < deque_len runs.old }
    requires room { deque_len runs.old < deque_capacity runs.old }
    ensures items { runs.new.items
        ≡ take at runs.old.items ++ (head ∷ (tail ∷ drop (at + 1) runs.old.items)) }
    ensures len { deque_len runs.new ≡ deque_len runs.old + 1 }
    ensures capacity { deque_capacity runs.new ≡ deque_capacity runs.old }
{
    runs.rotate_left(at);
    runs.pop_front();
    runs.push_front_reserved(tail);
    runs.push_back_reserved(head);
    runs.rotate_right(at + 1);
}

/// Drops what is from one position up to another, and moves what follows to the front.
fn turn_out<T: Drop>(queue: &mut VecDeque<T>, from: usize, to: usize)
    requires { (from ≤ to) × (to ≤ deque_len queue.old) }
    ensures items { queue.new.items ≡ drop to queue.old.items ++ take from queue.old.items }
    ensures len { deque_len queue.new + (to - from) ≡ deque_len queue.old }
    ensures capacity { deque_capacity queue.new ≡ deque_capacity queue.old }
{
    queue.rotate_left(to);
    let left = queue.len() - (to - from);
    queue.truncate(left);
}

/// Numbers runs so that their starts follow one another again. The first `count` runs have `stop` starts, but the runs
/// after them are numbered as if these were `to`. Returns the number of the first start.
///
/// The later runs keep their numbers if the starts of the first ones can be counted back from there.
fn number_anew(
    runs: &mut VecDeque<Run>,
    count: usize,
    front: usize,
    base: usize,
    stop: usize,
    to: usize,
) -> usize
    requires count { count ≤ deque_len runs.old }
    requires first { IsNumbered front base (take count runs.old.items) }
    requires behind { IsNumbered (front + counts (take count runs.old.items)) (base + to)
        (drop count runs.old.items) }
    requires stop { stop ≡ widths (take count runs.old.items) }
    requires numbers { (front + counts runs.old.items < 2 ^ 64) × (base + widths runs.old.items < 2 ^ 64)
        × (base + to + widths (drop count runs.old.items) < 2 ^ 64) }
    ensures items { runs.new.items ≡ renumbered front result runs.old.items }
    ensures base { (result + widths runs.old.items < 2 ^ 64) × (result + widths runs.old.items
        ≤ max (base + widths runs.old.items) (base + to + widths (drop count runs.old.items))) }
    ensures len { deque_len runs.new ≡ deque_len runs.old }
    ensures capacity { deque_capacity runs.new ≡ deque_capacity runs.old }
{
    if stop == to {
        return base;
    }
    let end = base + to;
    if stop <= end {
        renumber(runs, count, front, end - stop);
        return end - stop;
    }
    let all = runs.len();
    renumber(runs, all, front, base);
    base
}

/// Numbers the entries and starts of the first `count` runs anew, from these numbers on.
fn renumber(runs: &mut VecDeque<Run>, count: usize, first: usize, at: usize)
    requires count { count ≤ deque_len runs.old }
    requires numbers { (first + counts (take count runs.old.items) < 2 ^ 64)
        × (at + widths (take count runs.old.items) < 2 ^ 64) }
    ensures items { runs.new.items
        ≡ renumbered first at (take count runs.old.items) ++ drop count runs.old.items }
    ensures len { deque_len runs.new ≡ deque_len runs.old }
    ensures capacity { deque_capacity runs.new ≡ deque_capacity runs.old }
{
    let mut first = first;
    let mut at = at;
    for i in 0..count {
        let run = runs[i];
        runs[i] = run.numbered(first, at);
        first += run.total();
        at += run.width();
    }
}

/// Appends these runs to others that have room for them, numbered from these numbers on.
fn move_runs(runs: &mut VecDeque<Run>, more: &VecDeque<Run>, first: usize, at: usize)
    requires room { deque_len runs.old + deque_len more.now ≤ deque_capacity runs.old }
    requires numbers { (first + counts more.now.items < 2 ^ 64) × (at + widths more.now.items < 2 ^ 64) }
    ensures items { runs.new.items ≡ runs.old.items ++ renumbered first at more.now.items }
    ensures len { deque_len runs.new ≡ deque_len runs.old + deque_len more.now }
    ensures capacity { deque_capacity runs.new ≡ deque_capacity runs.old }
{
    let mut first = first;
    let mut at = at;
    for i in 0..more.len() {
        let run = more[i];
        runs.push_back_reserved(run.numbered(first, at));
        first += run.total();
        at += run.width();
    }
}

/// Appends these starts to others that have room for them.
fn move_starts(starts: &mut VecDeque<u32>, more: &VecDeque<u32>)
    requires { deque_len starts.old + deque_len more.now ≤ deque_capacity starts.old }
    ensures items { starts.new.items ≡ starts.old.items ++ more.now.items }
    ensures len { deque_len starts.new ≡ deque_len starts.old + deque_len more.now }
    ensures capacity { deque_capacity starts.new ≡ deque_capacity starts.old }
{
    for i in 0..more.len() {
        starts.push_back_reserved(more[i]);
    }
}
