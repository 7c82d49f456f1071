//! The places of entries, as runs of entries that follow one another in a block, each with entries that came alone.
ghost use Rattle.std.specs.Prelude.{◌≡◌, ℕ, ◌+◌, ◌*◌, ◌-◌, ◌≤◌, ◌<◌, ◌^◌, ◌++◌, [], ◌∷◌, true, length, map, take, drop, slice_index_or, OnOk, OnErr};
ghost use Rattle.std.specs.VecDeque.{deque_capacity, deque_len};
ghost use Rattle.raft_log_extents.specs.Entries.{place_of};
ghost use Rattle.raft_log_extents.specs.Blocks.{pieces};
ghost use Rattle.raft_log_extents.specs.Counts.{bytes_for};
ghost use Rattle.raft_log_extents.specs.Runs.{counts, places_of, total, width, IsFound, IsSound, IsSound-prop};
ghost use Rattle.raft_log_extents.specs.Spots.{IsSpot};

mod alone;
mod bounds;
mod copying;
mod cutting;
mod pieces;

use crate::spot::Spot;
use crate::words::place_in_deque;
use crate::{Place, Run, place_of};
use pieces::push_pieces;
use raft_log_record_items::EntryIndex;
use std::alloc::{AllocError, Global};
use std::collections::VecDeque;

/// The numbers of the first entry and of the first start of a list that is new or empty. They are far from 0, because a
/// replacement may count starts back from there.
const FIRST: usize = 0x8000_0000_0000_0000;

const FIRST_START: usize = 0x4000_0000_0000_0000;

/// The places of consecutive entries, as runs. The starts are in the runs' order. A run with different lengths has one
/// for each entry: where it starts. Each entry that came alone has eight, which are its whole place.
#[derive(Drop)]
pub struct Runs {
    pub(crate) runs: VecDeque<Run>,
    pub(crate) starts: VecDeque<u32>,
    /// The number of the first entry.
    pub(crate) front: usize,
    /// The number of the first start.
    pub(crate) base: usize,
    /// The number of entries.
    pub(crate) len: usize,
    ghost sound: { IsSound front base len runs.items starts.items } by { IsSound-prop front base len runs.items starts.items },
}

impl Runs {
    ghost use Rattle.raft_log_extents.specs.RunLists.{places, bytes_of, HasRoom};

    /// No places.
    pub fn new(alloc: Global) -> Runs
        ensures items { places result ≡ [] }
        ensures sizes { (deque_len result.runs ≡ 0) × (deque_len result.starts ≡ 0) }
        ensures room { HasRoom result 0 }
    {
        Runs {
            runs: VecDeque::new(alloc),
            starts: VecDeque::new(alloc),
            front: FIRST,
            base: FIRST_START,
            len: 0,
        }
    }

    /// The number of entries.
    pub fn len(&self) -> usize
        ensures { result ≡ length (places self.now) }
    {
        self.len
    }

    /// The number of runs.
    pub fn run_count(&self) -> usize
        ensures { result ≡ deque_len self.now.runs }
    {
        self.runs.len()
    }

    /// The number of starts.
    pub fn start_count(&self) -> usize
        ensures { result ≡ deque_len self.now.starts }
    {
        self.starts.len()
    }

    /// The place of the entry at this position, which must be there. Its run is looked for at the hint first; then the
    /// hint is that run.
    pub fn at(&self, position: usize, hint: &mut usize) -> Place
        requires { position < length (places self.now) }
        ensures value { result ≡ slice_index_or (places self.now) position result }
        ensures fits { length (places self.now) < 2 ^ 64 }
    {
        let spot = self.spot(position, *hint);
        *hint = spot.at;
        place_in(&spot.run, &self.starts, spot.from, spot.within)
    }

    /// Where the entry at this position is in the list. Its run is looked for at the hint first.
    fn spot(&self, position: usize, hint: usize) -> Spot
        requires { position < self.now.len }
        ensures { IsSpot self.now.runs.items self.now.starts.items position result }
    {
        let number = self.front + position;
        let at = find(&self.runs, number, hint);
        let run = self.runs[at];
        Spot {
            at,
            run,
            from: run.at - self.base,
            within: number - run.first,
        }
    }

    /// Makes room for `count` more entries, wherever they are stored. Fails if memory runs out, or if entries or starts
    /// would get a number above 2^64 - 1. Then the places stay, and so does the room that there was.
    pub fn reserve(&mut self, count: usize) -> Result<(), AllocError>
        ensures items { places self.new ≡ places self.old }
        ensures sizes { (deque_len self.new.runs ≡ deque_len self.old.runs)
            × (deque_len self.new.starts ≡ deque_len self.old.starts) }
        ensures ok { OnOk result (HasRoom self.new count) }
        ensures room { (m : ℕ) → HasRoom self.old m → HasRoom self.new m }
    {
        let end = self.front + self.len;
        if end.checked_add(count).is_none() {
            return Err(AllocError);
        }
        let Some(starts) = count.checked_mul(8) else {
            return Err(AllocError);
        };
        let end = self.base + self.starts.len();
        if end.checked_add(starts).is_none() {
            return Err(AllocError);
        }
        let spare = (self.runs.len() / 4).max(3);
        make_room(&mut self.runs, count, spare)?;
        let spare = (self.starts.len() / 2).max(3);
        make_room(&mut self.starts, starts, spare)
    }

    /// Gives back memory if there is much more room than for `count` more entries. There must be room for these, and it
    /// stays.
    pub fn give_back(&mut self, count: usize)
        requires { HasRoom self.old count }
        ensures items { places self.new ≡ places self.old }
        ensures sizes { (deque_len self.new.runs ≡ deque_len self.old.runs)
            × (deque_len self.new.starts ≡ deque_len self.old.starts) }
        ensures room { HasRoom self.new count }
    {
        shrink(&mut self.runs, count, 4);
        shrink(&mut self.starts, count * 8, 32);
    }

    /// Appends the places of these entries, for which there must be room. A single entry joins the last run if
    /// that can have one more. Otherwise each piece of entries that follow one another in a block is a run.
    pub fn push(&mut self, entries: &[EntryIndex])
        requires { HasRoom self.old (length entries.now) }
        ensures items { places self.new ≡ places self.old ++ map place_of entries.now }
        ensures runs { deque_len self.new.runs ≤ deque_len self.old.runs + pieces (map place_of entries.now) }
        ensures room { (m : ℕ) → HasRoom self.old (length entries.now + m) → HasRoom self.new m }
        ensures bytes { bytes_of self.new
            ≤ bytes_of self.old + bytes_for (length (places self.old)) (map place_of entries.now) }
    {
        if entries.len() == 1 && self.takes_alone() {
            self.push_alone(place_of(&entries[0]));
            return;
        }
        let first = self.front + self.len;
        let at = self.base + self.starts.len();
        push_pieces(&mut self.runs, &mut self.starts, entries, first, at);
        self.len += entries.len();
    }

    /// Keeps only the first `count` entries.
    pub fn truncate(&mut self, count: usize)
        ensures items { places self.new ≡ take count (places self.old) }
        ensures runs { deque_len self.new.runs ≤ deque_len self.old.runs }
        ensures starts { deque_len self.new.starts ≤ deque_len self.old.starts }
        ensures room { (m : ℕ) → HasRoom self.old m → HasRoom self.new m }

        // the first runs that ended at or before the last entry that stays still end at the same places
        ensures ends { (k : ℕ) → k ≤ deque_len self.old.runs → counts (take k self.old.runs.items) ≤ count
            → (k ≤ deque_len self.new.runs)
            × (counts (take k self.new.runs.items) ≡ counts (take k self.old.runs.items)) }
    {
        if count >= self.len {
            return;
        }
        if count == 0 {
            self.clear();
            return;
        }
        let spot = self.spot(count - 1, self.runs.len() - 1);
        let last = place_in(&spot.run, &self.starts, spot.from, spot.within);
        let head = spot.run.head(spot.within + 1, last.entry_len);
        self.runs.truncate(spot.at);
        self.starts.truncate(spot.from + head.width());
        self.runs.push_back_reserved(head);
        self.len = count;
    }

    /// Drops the first `count` entries, which must be there.
    pub fn drop_front(&mut self, count: usize)
        requires { count ≤ length (places self.old) }
        ensures items { places self.new ≡ drop count (places self.old) }
        ensures runs { deque_len self.new.runs ≤ deque_len self.old.runs }
        ensures starts { deque_len self.new.starts ≤ deque_len self.old.starts }
        ensures room { (m : ℕ) → HasRoom self.old m → HasRoom self.new m }
    {
        if count == 0 {
            return;
        }
        if count >= self.len {
            self.clear();
            return;
        }
        let spot = self.spot(count, 0);
        let next = place_in(&spot.run, &self.starts, spot.from, spot.within);
        let tail = spot.run.tail(spot.within, next.entry_offset);
        let gone = tail.at - self.base;
        drop_first(&mut self.runs, spot.at + 1);
        self.runs.push_front_reserved(tail);
        drop_first(&mut self.starts, gone);
        self.front += count;
        self.base += gone;
        self.len -= count;
    }

    fn clear(&mut self)
        ensures items { places self.new ≡ [] }
        ensures runs { self.new.runs.items ≡ [] }
        ensures starts { deque_len self.new.starts ≡ 0 }
        ensures room { (m : ℕ) → HasRoom self.old m → HasRoom self.new m }
    {
        self.runs.clear();
        self.starts.clear();
        self.front = FIRST;
        self.base = FIRST_START;
        self.len = 0;
    }
}

/// Makes room for `count` more. If there isn't enough, makes it for `spare` others too, so not every batch moves all.
fn make_room<T>(queue: &mut VecDeque<T>, count: usize, spare: usize) -> Result<(), AllocError>
    ensures items { queue.new.items ≡ queue.old.items }
    ensures len { deque_len queue.new ≡ deque_len queue.old }
    ensures capacity { deque_capacity queue.old ≤ deque_capacity queue.new }
    ensures ok { OnOk result (deque_len queue.new + count ≤ deque_capacity queue.new) }
{
    if let Some(free) = queue.capacity().checked_sub(queue.len()) {
        if free >= count {
            return Ok(());
        }
    }
    queue.reserve_exact(count.saturating_add(spare))
}

/// If much of the capacity is unused with `count` more items, and more than twice `spare`, shrinks it to what they need
/// and a quarter.
fn shrink<T>(queue: &mut VecDeque<T>, count: usize, spare: usize)
    requires { deque_len queue.old + count ≤ deque_capacity queue.old }
    ensures items { queue.new.items ≡ queue.old.items }
    ensures len { deque_len queue.new ≡ deque_len queue.old }
    ensures room { deque_len queue.new + count ≤ deque_capacity queue.new }
{
    let needed = queue.len() + count;
    if queue.capacity() / 2 > needed.saturating_add(needed / 4).saturating_add(spare) {
        queue.shrink_to(needed.saturating_add(needed / 4));
    }
}

fn drop_first<T: Drop>(queue: &mut VecDeque<T>, count: usize)
    requires { count ≤ deque_len queue.old }
    ensures items { queue.new.items ≡ drop count queue.old.items }
    ensures len { deque_len queue.new + count ≡ deque_len queue.old }
    ensures capacity { deque_capacity queue.new ≡ deque_capacity queue.old }
{
    queue.drain(..count);
}

/// The position of the run that has the entry of this number, which isn't before the first. It is looked for at the
/// hint and right after it, and then among all.
fn find(runs: &VecDeque<Run>, number: usize, hint: usize) -> usize
    requires some { 0 < deque_len runs.now }
    requires low { (d : Run) → (slice_index_or runs.now.items 0 d).first ≤ number }
    ensures { IsFound number runs.now.items result }
{
    if is_in(runs, number, hint) {
        return hint;
    }
    if hint < runs.len() && is_in(runs, number, hint + 1) {
        return hint + 1;
    }
    search(runs, number)
}

/// Whether the entry of this number is in the run at this position, if there is such a run.
fn is_in(runs: &VecDeque<Run>, number: usize, at: usize) -> bool
    ensures { result ≡ true → IsFound number runs.now.items at }
{
    at < runs.len()
        && runs[at].first <= number
        && (at + 1 == runs.len() || number < runs[at + 1].first)
}

/// The position of the run that has the entry of this number, which isn't before the first.
fn search(runs: &VecDeque<Run>, number: usize) -> usize
    requires some { 0 < deque_len runs.now }
    requires low { (d : Run) → (slice_index_or runs.now.items 0 d).first ≤ number }
    ensures { IsFound number runs.now.items result }
{
    let mut low = 0;
    let mut high = runs.len();
    while high - low > 1 {
        let middle = low + (high - low) / 2;
        if runs[middle].first <= number {
            low = middle;
        } else {
            high = middle;
        }
    }
    low
}

/// The place of an entry of a run, whose first start is at this position if it has starts.
pub(crate) fn place_in(run: &Run, starts: &VecDeque<u32>, from: usize, within: usize) -> Place
    requires within { within < total run.now }
    requires fits { run.now.even ≡ true → (j : ℕ) → j < run.now.count
        → run.now.start + j * run.now.size < 2 ^ 32 }
    requires there { from + width run.now ≤ length starts.now.items }
    ensures { result ≡ slice_index_or (places_of run.now (drop from starts.now.items)) within result }
{
    if run.count <= within {
        return place_in_deque(starts, from + run.span(within));
    }
    if run.even {
        let offset = run.start as u64 + within as u64 * run.size as u64;
        return run.place(offset as u32, run.size);
    }
    let start = starts[from + within];
    if within + 1 < run.count {
        let next = starts[from + within + 1];
        run.place(start, next.saturating_sub(start))
    } else {
        run.place(start, run.size)
    }
}
