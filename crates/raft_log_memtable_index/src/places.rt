//! The places of a group's entries, and room for more.
ghost use Rattle.std.specs.Prelude.{◌≡◌, ◌↔◌, IsTrue, ◌+◌, ◌-◌, ◌≤◌, ◌<◌, ◌++◌, [], length, map, take, drop, slice_get, vec_len, vec_capacity, ◌^◌, Some, OnOk, OnErr};
ghost use Rattle.raft_log_extents.specs.Entries.{place_of, entries_of, kept_bytes};
ghost use Rattle.raft_log_extents.specs.Blocks.{between, pieces};
ghost use Rattle.raft_log_extents.specs.Bounds.{bounds_of, AreShort};
ghost use Rattle.raft_log_extents.specs.Counts.{bytes_for, passing, sized};

use raft_log_extents::{Bounds, Place, Runs};
use raft_log_record_base::{FileSeq, LogQueue};
use raft_log_record_items::EntryIndex;
use std::alloc::{AllocError, Global};
use std::marker::Model;

/// The places of consecutive entries, and promised room: for more entries, and for entries that replace others. They
/// are kept as runs of entries that follow one another in a block, and of those after them that came alone.
#[derive(Drop)]
pub struct Places {
    runs: Runs,
    wanted: usize,
    moves: usize,
}

impl Model for Places {
    ghost use Rattle.std.specs.Prelude.{◌+◌};
    ghost use Rattle.raft_log_extents.specs.Entries.{PlaceList};
    ghost use Rattle.raft_log_extents.specs.RunLists.{places, run_total, start_total, HasRoom};

    ghost Value = { PlaceList };

    ghost view = { λ p. record {
      items = places p.runs;
      runs = run_total p.runs;
      starts = start_total p.runs;
      wanted = p.wanted;
      moves = p.moves;
    } };

    ghost invariant = { λ p. HasRoom p.runs (p.wanted + (p.moves + p.moves)) };
}

impl Places {
    /// No places, and no room promised.
    pub fn new(alloc: Global) -> Places
        ensures { result ≡ record { items = []; runs = 0; starts = 0; wanted = 0; moves = 0 } }
    {
        Places {
            runs: Runs::new(alloc),
            wanted: 0,
            moves: 0,
        }
    }

    /// The number of places.
    pub fn len(&self) -> usize
        ensures { result ≡ length self.now.items }
    {
        self.runs.len()
    }

    /// The number of runs. Runs of 64 bytes, and starts of four, are all that is kept of the places.
    pub fn run_count(&self) -> usize
        ensures { result ≡ self.now.runs }
    {
        self.runs.run_count()
    }

    /// The number of starts, which say where entries of different lengths begin in their block, or keep the place of an
    /// entry that came alone.
    pub fn start_count(&self) -> usize
        ensures { result ≡ self.now.starts }
    {
        self.runs.start_count()
    }

    /// The place at this position.
    pub fn get(&self, position: usize) -> Option<Place>
        ensures { result ≡ slice_get self.now.items position }
    {
        if position < self.runs.len() {
            Some(self.runs.at(position, &mut 0))
        } else {
            None
        }
    }

    /// The place at this position, which must be there. It is looked for in the run at the hint first; then the hint is
    /// its run.
    pub fn at(&self, position: usize, hint: &mut usize) -> Place
        requires { position < length self.now.items }
        ensures { slice_get self.now.items position ≡ Some result }
    {
        self.runs.at(position, hint)
    }

    /// Adds the entries of `count` places from this position on, which must be there. The vector must have room for
    /// them. They get this queue, and indexes from `index` on.
    pub fn copy_entries(
        &self,
        queue: LogQueue,
        index: u64,
        position: usize,
        count: usize,
        entries: &mut Vec<EntryIndex>,
    )
        requires within { position + count ≤ length self.now.items }
        requires indexes { index + count < 2 ^ 64 }
        requires room { vec_len entries.old + count ≤ vec_capacity entries.old }
        ensures items { entries.new.items ≡ entries.old.items
            ++ entries_of queue index (take count (drop position self.now.items)) }
        ensures len { vec_len entries.new ≡ vec_len entries.old + count }
        ensures capacity { vec_capacity entries.new ≡ vec_capacity entries.old }
    {
        self.runs
            .copy_entries(queue, index, position, count, entries);
    }

    /// Finds at most `limit` entries, from this position on, that follow one another in one run. Returns their block,
    /// and where each of them starts and ends there. Nothing is copied. `limit` isn't 0, and there are that many places
    /// from the position on. The run is looked for at the hint first; then the hint is the next run.
    pub fn bounds(&self, position: usize, limit: usize, hint: &mut usize) -> (Place, Bounds<'_>)
        requires within { position + limit ≤ length self.now.items }
        requires some { 0 < limit }
        ensures places { between result.0 (bounds_of result.1)
            ≡ take (length (bounds_of result.1) - 1) (drop position self.now.items) }
        ensures count { (1 < length (bounds_of result.1)) × (length (bounds_of result.1) ≤ limit + 1) }
        ensures short { AreShort result.1 }
    {
        self.runs.bounds(position, limit, hint)
    }

    /// Makes room for `count` more places. If memory runs out, nothing changes.
    pub fn make_room(&mut self, count: usize) -> Result<(), AllocError>
        ensures ok { OnOk result (self.new ≡ record self.old { wanted = self.old.wanted + count }) }
        ensures err { OnErr result (self.new ≡ self.old) }
    {
        let Some(wanted) = self.wanted.checked_add(count) else {
            return Err(AllocError);
        };
        self.reserve(wanted, self.moves)
    }

    /// Makes room to replace `count` more of the places. If it fails, nothing changes.
    ///
    /// An entry that gets another place may cut a run in two, so there is room for two runs for each.
    pub fn make_room_to_move(&mut self, count: usize) -> Result<(), AllocError>
        ensures ok { OnOk result (self.new ≡ record self.old { moves = self.old.moves + count }) }
        ensures err { OnErr result (self.new ≡ self.old) }
    {
        let Some(moves) = self.moves.checked_add(count) else {
            return Err(AllocError);
        };
        self.reserve(self.wanted, moves)
    }

    /// Promises room for `wanted` more places, and to replace `moves` places.
    fn reserve(&mut self, wanted: usize, moves: usize) -> Result<(), AllocError>
        ensures ok { OnOk result (self.new ≡ record self.old { wanted = wanted; moves = moves }) }
        ensures err { OnErr result (self.new ≡ self.old) }
    {
        let Some(twice) = moves.checked_add(moves) else {
            return Err(AllocError);
        };
        let Some(room) = wanted.checked_add(twice) else {
            return Err(AllocError);
        };
        self.runs.reserve(room)?;
        self.wanted = wanted;
        self.moves = moves;
        Ok(())
    }

    /// Gives back memory if the places and the promised room need much less.
    fn give_back(&mut self)
        ensures { self.new ≡ self.old }
    {
        self.runs.give_back(self.wanted + (self.moves + self.moves));
    }

    /// Takes back the room to replace `count` places.
    pub fn forget_moves(&mut self, count: usize)
        ensures { self.new ≡ record self.old { moves = self.old.moves - count } }
    {
        self.moves = self.moves.saturating_sub(count);
        self.give_back();
    }

    /// Takes back all promised room.
    pub fn forget_room(&mut self)
        ensures { self.new ≡ record self.old { wanted = 0; moves = 0 } }
    {
        self.wanted = 0;
        self.moves = 0;
        self.give_back();
    }

    /// Whether no room is promised.
    pub fn is_unpromised(&self) -> bool
        ensures { IsTrue result ↔ ((self.now.wanted ≡ 0) × (self.now.moves ≡ 0)) }
    {
        self.wanted == 0 && self.moves == 0
    }

    /// Appends the places of these entries, in room that was promised for them.
    pub fn push(&mut self, entries: &[EntryIndex])
        requires { length entries.now ≤ self.old.wanted }
        ensures items { self.new.items ≡ self.old.items ++ map place_of entries.now }
        ensures runs { self.new.runs ≤ self.old.runs + pieces (map place_of entries.now) }
        ensures wanted { self.new.wanted ≡ self.old.wanted - length entries.now }
        ensures moves { self.new.moves ≡ self.old.moves }
        ensures bytes { kept_bytes self.new
            ≤ kept_bytes self.old + bytes_for (length self.old.items) (map place_of entries.now) }
    {
        self.runs.push(entries);
        self.wanted -= entries.len();
        self.give_back();
    }

    /// Appends more places, in room that was promised for them.
    pub fn append(&mut self, more: Places)
        requires { length more.items ≤ self.old.wanted }
        ensures items { self.new.items ≡ self.old.items ++ more.items }
        ensures runs { self.new.runs ≡ self.old.runs + more.runs }
        ensures wanted { self.new.wanted ≡ self.old.wanted - length more.items }
        ensures moves { self.new.moves ≡ self.old.moves }
        ensures bytes { kept_bytes self.new ≡ kept_bytes self.old + kept_bytes more }
    {
        let Places { runs, .. } = more;
        self.wanted -= runs.len();
        self.runs.append(runs);
    }

    /// Keeps only the first `count` places.
    pub fn truncate(&mut self, count: usize)
        ensures items { self.new.items ≡ take count self.old.items }
        ensures runs { self.new.runs ≤ self.old.runs }
        ensures wanted { self.new.wanted ≡ self.old.wanted }
        ensures moves { self.new.moves ≡ self.old.moves }
        ensures bytes { kept_bytes self.new ≤ kept_bytes self.old }
    {
        self.runs.truncate(count);
    }

    /// Drops the first `count` places.
    pub fn drop_front(&mut self, count: usize)
        requires { count ≤ length self.old.items }
        ensures items { self.new.items ≡ drop count self.old.items }
        ensures runs { self.new.runs ≤ self.old.runs }
        ensures wanted { self.new.wanted ≡ self.old.wanted }
        ensures moves { self.new.moves ≡ self.old.moves }
        ensures bytes { kept_bytes self.new ≤ kept_bytes self.old }
    {
        self.runs.drop_front(count);
    }

    /// Replaces as many places, from this position on, with those of these entries. The places must be there, and the
    /// room for it promised.
    pub fn replace(&mut self, position: usize, entries: &[EntryIndex])
        requires within { position + length entries.now ≤ length self.old.items }
        requires room { length entries.now ≤ self.old.moves }
        ensures items { self.new.items
            ≡ take position self.old.items
            ++ (map place_of entries.now ++ drop (position + length entries.now) self.old.items) }
        ensures runs { self.new.runs ≤ self.old.runs + (pieces (map place_of entries.now) + 1) }
        ensures wanted { self.new.wanted ≡ self.old.wanted }
        ensures moves { self.new.moves ≡ self.old.moves - length entries.now }
    {
        self.runs.replace(position, entries);
        self.moves -= entries.len();
        self.give_back();
    }

    /// The number of places from this position on, at most `limit`, before the first one in a file past the gate.
    pub fn count_up_to(&self, position: usize, limit: usize, gate: FileSeq) -> usize
        requires { position ≤ length self.now.items }
        ensures count { result ≡ passing gate (take limit (drop position self.now.items)) }
        ensures within { (result ≤ limit) × (position + result ≤ length self.now.items) }
    {
        let limit = limit.min(self.runs.len() - position);
        let mut hint = 0;
        for i in 0..limit {
            if self.runs.at(position + i, &mut hint).file > gate {
                return i;
            }
        }
        limit
    }

    /// How many of `count` entries from this position on a reader gets: always the first one, and more as long as the
    /// sum of their lengths is at most `max_size` bytes.
    pub fn sized(&self, position: usize, count: usize, max_size: Option<u64>) -> usize
        requires { position + count ≤ length self.now.items }
        ensures count { result ≡ sized max_size (take count (drop position self.now.items)) }
        ensures within { result ≤ count }
    {
        let Some(max_size) = max_size else {
            return count;
        };
        if count == 0 {
            return 0;
        }
        let mut hint = 0;
        let first = self.runs.at(position, &mut hint).entry_len as u64;
        if first > max_size {
            return 1;
        }
        let mut left = max_size - first;
        for i in 1..count {
            let len = self.runs.at(position + i, &mut hint).entry_len as u64;
            if len > left {
                return i;
            }
            left -= len;
        }
        count
    }
}
