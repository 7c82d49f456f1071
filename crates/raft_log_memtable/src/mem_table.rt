//! The memtable of one group: where its entries and keys are stored.
ghost use Rattle.std.specs.Prelude.{◌≡◌, ◌↔◌, IsTrue, ◌^◌, ◌++◌, map, nat_lt, slice_get, take, drop, vec_len, vec_capacity, IfOk, ◌+◌, ◌-◌, ◌≤◌, ◌<◌, ℕ, List, length, min, option_copied, true, Some, OnOk, OnErr, IfErr};
ghost use Rattle.raft_log_record_base.specs.declared.errors.Error.TheVariants as errors;
ghost use Rattle.raft_log_record_items.specs.Run.{IsRun};
ghost use Rattle.raft_log_model_laws.specs.Item.Item.{Clean, Compact, Del, Put};
ghost use Rattle.raft_log_extents.specs.declared.place.Place.{Place};
ghost use Rattle.raft_log_memtable_index.specs.Shown.{IsOrderly, MayFollow, nothing_shown, span, stepped, with_clean, with_compact, with_del, with_put};
ghost use Rattle.raft_log_extents.specs.Blocks.{pieces};
ghost use Rattle.raft_log_extents.specs.Bounds.{AreShort, bounds_of};
ghost use Rattle.raft_log_extents.specs.Counts.{sized};
ghost use Rattle.raft_log_extents.specs.Entries.{entries_between, entry_of, place_of, queue_of, run_of};
ghost use Rattle.raft_log_memtable_index.specs.Bridge.{moved_key, unmarked};
ghost use Rattle.raft_log_memtable.specs.Moves.{key_rewritten, may_move, moved_by, owed_compact, rewritten_by, RunStandsIn};
ghost use Rattle.raft_log_memtable_index.specs.Keys.{shown_value, value_of};
ghost use Rattle.raft_log_memtable.specs.Reads.{entries_from, entry_at, places_between, first_of, last_of, AreIn, Fetches, FetchRefused};
ghost use Rattle.raft_log_memtable.specs.Room.{kept, no_promise, promised, taken_back, with_moves, with_room_for, with_room_of, without_moves, CanTake, IsVacant};
ghost use Rattle.raft_log_memtable_index.specs.Replayed.{nothing_replayed};
ghost use Rattle.raft_log_memtable.specs.Table.{promise, replay_of, runs_of, shown, window_of, IsBoundAs, OwesNothing, PromisesNothing, RunRefused, StandsEmpty};

mod files;
mod merge;
mod reads;
mod replay;

use crate::ends::Ends;
use raft_log_extents::{Bounds, entry_of};
use raft_log_memtable_index::{GroupFiles, HeldValue, KeyMap, Places};
use raft_log_record_base::{Error, FileBlockHandle, FileId, FileSeq, LogQueue, Result};
use raft_log_record_items::{Bytes, EntryIndex};
use std::alloc::{AllocError, Global};
use std::marker::Model;

/// Where the entries and keys of one group are stored, and which tombstones are owed to Rewrite.
///
/// A call that fails doesn't change its state in contracts (`shown`). What applies a written batch can't fail:
/// `prepare_..` allocated the memory before, without a change of `shown`. Room is promised for entries, for moves to
/// Rewrite, and for keys. If nothing is promised any more, keys keep their room.
#[derive(Drop)]
pub struct MemTable {
    first: u64,
    places: Places,
    rewritten: usize,
    ahead: Ends,
    /// The greatest index of a Compact that was read.
    low: u64,
    /// The least start of a run that was read.
    high: Option<u64>,
    keys: KeyMap,
    cleaned: bool,
    compacted: bool,
    noted: Option<GroupFiles>,
}

impl Model for MemTable {
    ghost use Rattle.std.specs.Prelude.{◌+◌, ◌-◌, ◌^◌, ◌≤◌, length};
    ghost use Rattle.raft_log_memtable.specs.Table.{Raw};

    ghost Value = { Raw };

    ghost view = { λ t. record {
      first = t.first;
      places = t.places;
      rewritten = t.rewritten;
      ahead = t.ahead;
      keys = t.keys;
      cleaned = t.cleaned;
      compacted = t.compacted;
      noted = t.noted;
      low = t.low;
      high = t.high;
    } };

    ghost invariant = { λ t. (t.rewritten ≤ length t.places.items)
        × (t.first + length t.places.items ≤ 2 ^ 64 - 1) };
}

impl MemTable {
    /// A table without entries, values and tombstones.
    pub fn new(alloc: Global) -> MemTable
        ensures shows { shown result ≡ nothing_shown }
        ensures room { promise result ≡ no_promise }
        ensures replay { replay_of result ≡ nothing_replayed }
    {
        MemTable {
            first: 0,
            places: Places::new(alloc),
            rewritten: 0,
            ahead: Ends { first: 0, end: 0 },
            keys: KeyMap::new(alloc),
            cleaned: false,
            compacted: false,
            noted: None,
            low: 0,
            high: None,
        }
    }

    /// The two ends of the entries.
    #[tactic(auto, unfolding(raft_log_machine_laws::specs::Whereabouts::top))]
    pub fn span(&self) -> Ends
        ensures ends { window_of result ≡ span (shown self.now) }
        ensures orderly { IsOrderly (shown self.now) }
    {
        Ends {
            first: self.first,
            end: self.first + self.places.len() as u64,
        }
    }

    /// The number of entries.
    pub fn entries_count(&self) -> usize
        ensures { result ≡ length (shown self.now).places }
    {
        self.places.len()
    }

    /// The number of runs that keep the places of the entries. An entry that came alone is kept with the run before it.
    pub fn run_count(&self) -> usize
        ensures { result ≡ runs_of self.now }
    {
        self.places.run_count()
    }

    /// The number of entries in Rewrite. They are the first ones.
    pub fn rewritten_count(&self) -> usize
        ensures { result ≡ (shown self.now).rewritten }
    {
        self.rewritten
    }

    /// The first index, if there are entries.
    pub fn first_index(&self) -> Option<u64>
        ensures { result ≡ first_of (shown self.now) }
    {
        if self.places.len() == 0 {
            return None;
        }
        Some(self.first)
    }

    /// The last index, if there are entries.
    pub fn last_index(&self) -> Option<u64>
        ensures { result ≡ last_of (shown self.now) }
    {
        if self.places.len() == 0 {
            return None;
        }
        Some(self.first + (self.places.len() as u64 - 1))
    }

    /// The value of a key and where it is stored, if the key has a value.
    pub fn get(&self, key: &[u8]) -> Option<&HeldValue>
        ensures { shown_value (option_copied result) ≡ (shown self.now).held key.now }
    {
        self.keys.get(key)
    }

    /// The entry at an index, if there is one.
    pub fn get_entry(&self, index: u64) -> Option<EntryIndex>
        ensures { result ≡ entry_at (shown self.now) index }
    {
        if index < self.first {
            return None;
        }
        let position = (index - self.first) as usize;
        let place = self.places.get(position)?;
        let queue = if position < self.rewritten {
            LogQueue::Rewrite
        } else {
            LogQueue::Append
        };
        Some(entry_of(queue, index, place))
    }

    /// Adds the entries from `begin` on, below `end`, and returns how many. The first is always added. More are added
    /// as long as the sum of the lengths is at most `max_size` bytes. An empty range adds nothing and never fails.
    ///
    /// - `EntryNotFound`: the table has no entries, or they end before `end`.
    /// - `EntryCompacted`: the first entry is after `begin`.
    /// - `Memory`: memory ran out.
    ///
    /// If it fails, nothing is added.
    pub fn fetch_entries_to(
        &self,
        begin: u64,
        end: u64,
        max_size: Option<u64>,
        entries: &mut Vec<EntryIndex>,
    ) -> Result<usize>
        ensures ok { IfOk result
            (Fetches (shown self.now) begin end max_size entries.old.items entries.new.items) }
        ensures within { OnOk result (AreIn (shown self.now) begin end) }
        ensures err { OnErr result (entries.new.items ≡ entries.old.items) }
        ensures errors { IfErr result (λ e. FetchRefused (shown self.now) begin end e) }
    {
        let count = self.count_to(begin, end, max_size)?;
        if count == 0 {
            return Ok(0);
        }
        entries.reserve(count)?;
        self.copy_entries((begin - self.first) as usize, count, entries);
        Ok(count)
    }

    /// How many entries `fetch_entries_to` would add. It fails as that does, but never with `Memory`.
    pub fn count_to(&self, begin: u64, end: u64, max_size: Option<u64>) -> Result<usize>
        ensures ok { IfOk result (λ count. count ≡ sized max_size (places_between (shown self.now) begin end)) }
        ensures few { IfOk result (λ count. count ≤ end - begin) }
        ensures within { OnOk result (AreIn (shown self.now) begin end) }
        ensures err { IfErr result (λ e. FetchRefused (shown self.now) begin end e) }
        ensures told { IfErr result (λ e. e ≡ errors.Memory → ⊥) }
    {
        if begin >= end {
            return Ok(0);
        }
        if self.places.len() == 0 {
            return Err(Error::EntryNotFound);
        }
        if begin < self.first {
            return Err(Error::EntryCompacted);
        }
        if end > self.first + self.places.len() as u64 {
            return Err(Error::EntryNotFound);
        }
        let position = (begin - self.first) as usize;
        Ok(
            self.places
                .sized(position, (end - begin) as usize, max_size),
        )
    }

    /// Finds at most `limit` entries, from this index on, that follow one another in one block. Returns that block, and
    /// where each of them starts and ends there. Nothing is copied. `limit` isn't 0, and the table has that many
    /// entries from the index on. The hint is the run to look at first; it becomes the run of the next entries.
    pub fn bounds(
        &self,
        index: u64,
        limit: usize,
        hint: &mut usize,
    ) -> (FileBlockHandle, Bounds<'_>)
        requires first { (shown self.now).first ≤ index }
        requires within { index + limit ≤ (shown self.now).first + length (shown self.now).places }
        requires some { 0 < limit }
        ensures entries { entries_between result.0 index (bounds_of result.1)
            ≡ entries_from (shown self.now) (index - (shown self.now).first) (take (length (bounds_of result.1) - 1)
            (drop (index - (shown self.now).first) (shown self.now).places)) }
        ensures count { (1 < length (bounds_of result.1)) × (length (bounds_of result.1) ≤ limit + 1) }
        ensures short { AreShort result.1 }
    {
        let position = (index - self.first) as usize;
        let (queue, limit) = if position < self.rewritten {
            (LogQueue::Rewrite, limit.min(self.rewritten - position))
        } else {
            (LogQueue::Append, limit)
        };
        let (place, bounds) = self.places.bounds(position, limit, hint);
        let block = FileBlockHandle {
            id: FileId::new(queue, place.file),
            offset: place.offset,
            len: place.len,
        };
        (block, bounds)
    }

    /// Adds `count` entries from this position on. The vector must have room for them.
    fn copy_entries(&self, position: usize, count: usize, entries: &mut Vec<EntryIndex>)
        requires within { position + count ≤ length (shown self.now).places }
        requires fits { position + count < 2 ^ 64 }
        requires room { vec_len entries.old + count ≤ vec_capacity entries.old }
        ensures { entries.new.items
            ≡ entries.old.items ++ entries_from (shown self.now) position
            (take count (drop position (shown self.now).places)) }
    {
        let before = self.rewritten.saturating_sub(position).min(count);
        let behind = position + before;
        let places = &self.places;
        let index = self.first + position as u64;
        places.copy_entries(LogQueue::Rewrite, index, position, before, entries);
        let index = self.first + behind as u64;
        places.copy_entries(LogQueue::Append, index, behind, count - before, entries);
    }

    /// Makes room for the entries of a batch that is to be written, after all that is prepared already.
    ///
    /// Fails with `Hole` if there are entries after all that is prepared, and these start past their end. Otherwise it
    /// can fail with `Memory`. Whether it succeeds or fails, `shown` stays.
    pub fn prepare_append(&mut self, entries: &[EntryIndex]) -> Result<()>
        requires { IsRun entries.now }
        ensures shows { shown self.new ≡ shown self.old }
        ensures ok { OnOk result (promise self.new ≡ promised (promise self.old) (run_of entries.now)) }
        ensures follows { OnOk result (MayFollow (promise self.old).ends (run_of entries.now)) }
        ensures err { OnErr result (promise self.new ≡ promise self.old) }
        ensures errors { IfErr result (λ e. RunRefused (promise self.old).ends (run_of entries.now) e) }
        ensures bounds { IsBoundAs self.old self.new }
        ensures runs { runs_of self.new ≡ runs_of self.old }
    {
        let Some(ahead) = self.ahead.after_run(entries) else {
            return Err(Error::Hole);
        };
        self.places.make_room(entries.len())?;
        self.ahead = ahead;
        Ok(())
    }

    /// Makes room for a key that is to be put or deleted. Whether it succeeds or fails, `shown` stays.
    pub fn prepare_key(&mut self, key: &[u8]) -> Result<(), AllocError>
        ensures shows { shown self.new ≡ shown self.old }
        ensures ok { OnOk result (promise self.new ≡ with_room_for (promise self.old) key.now) }
        ensures has { OnOk result ((promise self.new).has key.now ≡ true) }
        ensures err { OnErr result (promise self.new ≡ promise self.old) }
        ensures bounds { IsBoundAs self.old self.new }
    {
        self.keys.make_room(key)
    }

    /// Makes room to move these entries to Rewrite, in addition to all that is prepared already. Whether it succeeds or
    /// fails, `shown` stays.
    pub fn prepare_rewrite(&mut self, entries: &[EntryIndex]) -> Result<(), AllocError>
        ensures shows { shown self.new ≡ shown self.old }
        ensures ok { OnOk result (promise self.new ≡ with_moves (promise self.old) (length entries.now)) }
        ensures err { OnErr result (promise self.new ≡ promise self.old) }
        ensures bounds { IsBoundAs self.old self.new }
    {
        self.places.make_room_to_move(entries.len())
    }

    /// Prepares a compaction. `shown` stays.
    pub fn prepare_compact(&mut self, index: u64)
        ensures shows { shown self.new ≡ shown self.old }
        ensures ok { promise self.new ≡ promised {E = Place} {V = List ℕ} (promise self.old) (Compact index) }
        ensures bounds { IsBoundAs self.old self.new }
    {
        self.ahead = self.ahead.after_compact(index);
    }

    /// Prepares a Clean: what follows it in the batch may begin at any index. Promised room stays. `shown` stays.
    pub fn prepare_clean(&mut self)
        ensures shows { shown self.new ≡ shown self.old }
        ensures ok { promise self.new ≡ promised {E = Place} {V = List ℕ} (promise self.old) Clean }
        ensures bounds { IsBoundAs self.old self.new }
    {
        self.ahead = Ends { first: 0, end: 0 };
    }

    /// Takes back the room for entries and moves that was promised to a batch that isn't written. `shown` stays, and
    /// keys keep their room.
    pub fn take_back(&mut self)
        ensures shows { shown self.new ≡ shown self.old }
        ensures room { promise self.new ≡ taken_back (promise self.old) (span (shown self.old)) }
        ensures bounds { IsBoundAs self.old self.new }
        ensures runs { runs_of self.new ≡ runs_of self.old }
    {
        self.places.forget_room();
        self.ahead = self.span();
    }

    /// Appends these entries, which are in Append, in room that was prepared. They replace all entries from the first
    /// one's index on.
    pub fn append(&mut self, entries: &[EntryIndex])
        requires run { IsRun entries.now }
        requires room { CanTake (shown self.old) (promise self.old) (run_of entries.now) }
        ensures shows { (n : ℕ) → shown self.new ≡ stepped n (shown self.old) (run_of entries.now) }
        ensures room { promise self.new ≡ kept (promise self.old) (run_of entries.now) }
        ensures bounds { IsBoundAs self.old self.new }
        ensures runs { runs_of self.new ≤ runs_of self.old + pieces (map place_of entries.now) }
    {
        let Some(front) = entries.first() else {
            return;
        };
        let keep = front.index.saturating_sub(self.first) as usize;
        if self.first >= front.index || self.places.len() == 0 {
            self.first = front.index;
        }
        self.rewritten = self.rewritten.min(keep);
        self.places.truncate(keep);
        self.places.push(entries);
    }

    /// Sets the key's value, which is in this file of Append. The key must have room.
    pub fn put(&mut self, key: &[u8], bytes: Bytes, file: FileSeq)
        requires { (promise self.old).has key.now ≡ true }
        ensures shows { shown self.new ≡ with_put file (shown self.old) key.now bytes }
        ensures room { promise self.new ≡ promise self.old }
        ensures bounds { IsBoundAs self.old self.new }
    {
        let value = HeldValue {
            bytes,
            appended: true,
            file,
        };
        self.keys.put(key, value);
    }

    /// Deletes the key, which must have room: it has no value then, and a tombstone, whether it had a value or not.
    pub fn delete(&mut self, key: &[u8])
        requires { (promise self.old).has key.now ≡ true }
        ensures shows { shown self.new ≡ with_del (shown self.old) key.now }
        ensures room { promise self.new ≡ promise self.old }
        ensures bounds { IsBoundAs self.old self.new }
    {
        self.keys.delete(key);
    }

    /// Drops the entries below an index, and returns how many. A Compact is owed then, even if none was dropped.
    pub fn compact_to(&mut self, index: u64) -> usize
        ensures shows { shown self.new ≡ with_compact (shown self.old) index }
        ensures count { result ≡ min (index - (shown self.old).first) (length (shown self.old).places) }
        ensures room { promise self.new ≡ promise self.old }
        ensures bounds { IsBoundAs self.old self.new }
        ensures runs { runs_of self.new ≤ runs_of self.old }
    {
        let count = (index.saturating_sub(self.first) as usize).min(self.places.len());
        self.rewritten = self.rewritten.saturating_sub(count);
        self.first += count as u64;
        self.places.drop_front(count);
        self.compacted = true;
        count
    }

    /// Drops all entries, values and noted files. A Clean is owed then, and no Compact. Keys keep their tombstones, and
    /// what is promised stays.
    pub fn clean(&mut self)
        ensures shows { shown self.new ≡ with_clean (shown self.old) }
        ensures room { promise self.new ≡ promise self.old }
        ensures bounds { IsBoundAs self.old self.new }
    {
        self.places.truncate(0);
        self.first = 0;
        self.rewritten = 0;
        self.keys.empty();
        self.cleaned = true;
        self.compacted = false;
        self.noted = None;
    }

    /// Notes that the key's value, if it has one, is now in this file of Rewrite: a copy was written there.
    pub fn move_key(&mut self, key: &[u8], file: FileSeq)
        ensures shows { shown self.new ≡ moved_key (shown self.old) key.now file }
        ensures room { promise self.new ≡ promise self.old }
        ensures bounds { IsBoundAs self.old self.new }
    {
        self.keys.rewrite(key, file);
    }

    /// Notes that a copy of the key was written to Rewrite. Its value is then in this file, if it was in Rewrite
    /// before, or, with a gate, in a file of Append up to it.
    pub fn rewrite_key(&mut self, key: &[u8], gate: Option<FileSeq>, file: FileSeq)
        ensures shows { shown self.new ≡ key_rewritten gate (shown self.old) key.now file }
        ensures ends { span (shown self.new) ≡ span (shown self.old) }
        ensures room { promise self.new ≡ promise self.old }
        ensures bounds { IsBoundAs self.old self.new }
    {
        let Some(held) = self.keys.get(key) else {
            return;
        };
        if may_move(held, gate) {
            self.keys.rewrite(key, file);
        }
    }

    /// Notes that these entries were copied to Rewrite: they get the places of their copies. The table must have them
    /// all, and room for the moves. They must begin in Rewrite or right after its entries, and end no earlier than
    /// these.
    pub fn move_run(&mut self, entries: &[EntryIndex])
        requires run { IsRun entries.now }
        requires within { RunStandsIn (shown self.old) (run_of entries.now) }
        requires room { length entries.now ≤ (promise self.old).moves }
        ensures shows { shown self.new ≡ moved_by (shown self.old) (run_of entries.now) }
        ensures room { promise self.new ≡ without_moves (promise self.old) (length entries.now) }
        ensures bounds { IsBoundAs self.old self.new }
        ensures runs { runs_of self.new ≤ runs_of self.old + (pieces (map place_of entries.now) + 1) }
    {
        let Some(front) = entries.first() else {
            return;
        };
        let position = (front.index - self.first) as usize;
        self.places.replace(position, entries);
        self.rewritten = position + entries.len();
    }

    /// Notes that copies of these entries were written to Rewrite. The room for it was prepared. Entries that are still
    /// there get the new places: the rewritten ones, and with a gate the appended ones after them, before the first one
    /// in a file past the gate. If the copies begin past the entries in Rewrite, none moves.
    pub fn rewrite(&mut self, entries: &[EntryIndex], gate: Option<FileSeq>)
        requires run { IsRun entries.now }
        requires room { length entries.now ≤ (promise self.old).moves }
        ensures shows { shown self.new ≡ rewritten_by gate (shown self.old) (run_of entries.now) }
        ensures ends { span (shown self.new) ≡ span (shown self.old) }
        ensures room { promise self.new ≡ without_moves (promise self.old) (length entries.now) }
        ensures bounds { IsBoundAs self.old self.new }
        ensures runs { runs_of self.new ≤ runs_of self.old + (pieces (map place_of entries.now) + 1) }
    {
        let Some(front) = entries.first() else {
            return;
        };
        let position = front.index.saturating_sub(self.first) as usize;
        if position > self.rewritten {
            self.places.forget_moves(entries.len());
            return;
        }
        let gone = (self.first.saturating_sub(front.index) as usize).min(entries.len());
        let (_, kept) = entries.split_at(gone);
        let there = kept.len().min(self.rewritten - position);
        let more = match gate {
            Some(gate) => self
                .places
                .count_up_to(self.rewritten, kept.len() - there, gate),
            None => 0,
        };
        let count = there + more;
        let (moved, _) = kept.split_at(count);
        self.places.replace(position, moved);
        self.places.forget_moves(entries.len() - count);
        self.rewritten = self.rewritten.max(position + count);
    }

    /// Removes all owed tombstones: they were written to Rewrite and synced. Keys without a value lose their room.
    pub fn clear_marks(&mut self)
        ensures shows { shown self.new ≡ unmarked (shown self.old) }
        ensures room { promise self.new ≡ with_room_of (promise self.old) (shown self.old) }
        ensures bounds { IsBoundAs self.old self.new }
    {
        self.cleaned = false;
        self.compacted = false;
        self.keys.clear_marks();
    }

    /// Whether the table is like a new one: it begins at 0, has no entries, values, tombstones or noted files, and
    /// promises nothing, not even room for a key.
    pub fn is_vacant(&self) -> bool
        ensures { IsTrue result ↔ IsVacant (shown self.now) (promise self.now) }
    {
        self.stands_empty() && self.owes_nothing() && self.promises_nothing()
    }

    /// Whether there are no entries, no values, and no keys with room.
    fn stands_empty(&self) -> bool
        ensures { IsTrue result ↔ StandsEmpty self.now }
    {
        let begins = self.first == 0 && self.rewritten == 0;
        begins && self.places.len() == 0 && self.keys.is_empty()
    }

    /// Whether neither a Clean nor a Compact is owed, and no files are noted.
    fn owes_nothing(&self) -> bool
        ensures { IsTrue result ↔ OwesNothing self.now }
    {
        !self.cleaned && !self.compacted && self.noted.is_none()
    }

    /// Whether no places are promised, and the promised ends are those of an empty table.
    fn promises_nothing(&self) -> bool
        ensures { IsTrue result ↔ PromisesNothing self.now }
    {
        self.ahead.first == 0 && self.ahead.end == 0 && self.places.is_unpromised()
    }

    /// Whether a Clean is owed to Rewrite.
    pub fn owes_clean(&self) -> bool
        ensures { result ≡ (shown self.now).cleaned }
    {
        self.cleaned
    }

    /// The index of the Compact that is owed to Rewrite, if one is: the first entry's if there are rewritten ones, else
    /// 2^64 - 1, which is past every index.
    #[tactic(auto, unfolding(raft_log_machine_laws::specs::Whereabouts::top))]
    pub fn owed_compact(&self) -> Option<u64>
        ensures { result ≡ owed_compact (shown self.now) }
    {
        if !self.compacted {
            return None;
        }
        Some(if self.rewritten > 0 {
            self.first
        } else {
            u64::MAX
        })
    }
}

/// Whether a value may move to Rewrite: it is there already, or in a file up to the gate.
fn may_move(held: &HeldValue, gate: Option<FileSeq>) -> bool
    ensures { result ≡ may_move gate (value_of held.now) }
{
    match gate {
        Some(gate) => !held.appended || held.file <= gate,
        None => !held.appended,
    }
}
