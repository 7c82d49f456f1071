//! Replays items of records: as each is read, room for it is made, and it is applied.
ghost use Rattle.std.specs.Prelude.{◌≡◌, ◌+◌, ◌≤◌, ℕ, Bool, true, false, length, map, OnOk, OnErr, IfErr};
ghost use Rattle.raft_log_record_items.specs.Run.{IsRun};
ghost use Rattle.raft_log_model_laws.specs.Item.Item.{Clean, Compact, Del, Put};
ghost use Rattle.raft_log_extents.specs.Blocks.{pieces};
ghost use Rattle.raft_log_extents.specs.Entries.{place_of, run_of};
ghost use Rattle.raft_log_memtable_index.specs.Shown.{span, MayFollow};
ghost use Rattle.raft_log_memtable_index.specs.Replayed.{high_with, replay_step, replayed};
ghost use Rattle.raft_log_memtable.specs.Replays.{in_append, under};
ghost use Rattle.raft_log_memtable.specs.Room.{IsForgotten};
ghost use Rattle.raft_log_memtable.specs.Table.{promise, replay_of, runs_of, shown, IsBoundAs, RunRefused};

use super::MemTable;
use raft_log_memtable_index::HeldValue;
use raft_log_record_base::{FileSeq, LogQueue, Result};
use raft_log_record_items::{Bytes, EntryIndex};
use std::alloc::AllocError;

impl MemTable {
    /// Applies entries that were read from Append. Fails with `Hole` if they start past the index after the last, or
    /// with `Memory`; then the table has what it had. Whether it succeeds or fails, nothing is promised any more.
    pub fn replay_append(&mut self, entries: &[EntryIndex]) -> Result<()>
        requires { IsRun entries.now }
        ensures ok { (n : ℕ)
            → OnOk result (replay_of self.new ≡ replayed true n (replay_of self.old) (run_of entries.now)) }
        ensures fits { OnOk result (MayFollow (span (shown self.old)) (run_of entries.now)) }
        ensures err { OnErr result (replay_of self.new ≡ replay_of self.old) }
        ensures errors { IfErr result (λ e. RunRefused (span (shown self.old)) (run_of entries.now) e) }
        ensures ends { (promise self.new).ends ≡ span (shown self.new) }
        ensures forgotten { IsForgotten (promise self.new) }
        ensures runs { runs_of self.new ≤ runs_of self.old + pieces (map place_of entries.now) }
    {
        self.take_back();
        self.prepare_append(entries)?;
        self.append(entries);
        self.note_run(entries);
        Ok(())
    }

    /// Applies entries that were read from Rewrite. If they start past the index after the last, they replace all.
    /// Whether it succeeds or fails, nothing is promised any more.
    pub fn replay_rewrite(&mut self, entries: &[EntryIndex]) -> Result<(), AllocError>
        requires { IsRun entries.now }
        ensures ok { (n : ℕ)
            → OnOk result (replay_of self.new ≡ replayed false n (replay_of self.old) (run_of entries.now)) }
        ensures err { OnErr result (replay_of self.new ≡ replay_of self.old) }
        ensures ends { (promise self.new).ends ≡ span (shown self.new) }
        ensures forgotten { IsForgotten (promise self.new) }
        ensures runs { runs_of self.new ≤ runs_of self.old + (pieces (map place_of entries.now) + 1) }
    {
        self.take_back();
        self.places.make_room(entries.len())?;
        self.come_over(entries);
        self.note_run(entries);
        self.take_back();
        Ok(())
    }

    /// Puts entries, for which there is room, into Rewrite. They replace those from the first one's index on.
    fn come_over(&mut self, entries: &[EntryIndex])
        requires run { IsRun entries.now }
        requires room { length entries.now ≤ self.old.places.wanted }
        ensures shows { (n : ℕ) → shown self.new ≡ replay_step false n (shown self.old) (run_of entries.now) }
        ensures bounds { IsBoundAs self.old self.new }
        ensures runs { runs_of self.new ≤ runs_of self.old + pieces (map place_of entries.now) }
    {
        let Some(front) = entries.first() else {
            return;
        };
        self.give_way(front.index);
        self.places.push(entries);
        self.rewritten += entries.len();
    }

    /// Applies a value that was read from a file of a queue. Whether it succeeds or fails, nothing is promised any
    /// more.
    pub fn replay_put(
        &mut self,
        queue: LogQueue,
        key: &[u8],
        bytes: Bytes,
        file: FileSeq,
    ) -> Result<(), AllocError>
        ensures ok { OnOk result (replay_of self.new
            ≡ replayed (in_append queue) file (replay_of self.old) (Put key.now bytes)) }
        ensures err { OnErr result (replay_of self.new ≡ replay_of self.old) }
        ensures ends { (promise self.new).ends ≡ span (shown self.new) }
        ensures forgotten { IsForgotten (promise self.new) }
    {
        self.take_back();
        self.prepare_key(key)?;
        let value = HeldValue {
            bytes,
            appended: queue == LogQueue::Append,
            file,
        };
        self.keys.put(key, value);
        Ok(())
    }

    /// Applies a Del that was read. Whether it succeeds or fails, nothing is promised any more.
    pub fn replay_delete(&mut self, key: &[u8]) -> Result<(), AllocError>
        ensures ok { (q : Bool) (n : ℕ)
            → OnOk result (replay_of self.new ≡ replayed q n (replay_of self.old) (Del key.now)) }
        ensures err { OnErr result (replay_of self.new ≡ replay_of self.old) }
        ensures ends { (promise self.new).ends ≡ span (shown self.new) }
        ensures forgotten { IsForgotten (promise self.new) }
    {
        self.take_back();
        self.prepare_key(key)?;
        self.delete(key);
        Ok(())
    }

    /// Applies a Compact that was read. Nothing is promised any more.
    pub fn replay_compact(&mut self, index: u64)
        ensures read { (q : Bool) (n : ℕ)
            → replay_of self.new ≡ replayed q n (replay_of self.old) (Compact index) }
        ensures ends { (promise self.new).ends ≡ span (shown self.new) }
        ensures forgotten { IsForgotten (promise self.new) }
    {
        self.compact_to(index);
        self.low = self.low.max(index);
        self.take_back();
    }

    /// Applies a Clean that was read. Nothing is promised any more, and keys without a tombstone lose their room.
    pub fn replay_clean(&mut self)
        ensures read { (q : Bool) (n : ℕ) → replay_of self.new ≡ replayed q n (replay_of self.old) Clean }
        ensures keys { (promise self.new).has ≡ (shown self.old).deleted }
        ensures ends { (promise self.new).ends ≡ span (shown self.new) }
        ensures forgotten { IsForgotten (promise self.new) }
    {
        self.keys.clear();
        self.clean();
        self.take_back();
    }

    /// Counts a run that was read in the least start of a run.
    fn note_run(&mut self, entries: &[EntryIndex])
        ensures { self.new ≡ record self.old { high = high_with (run_of entries.now) self.old.high } }
    {
        if let Some(front) = entries.first() {
            self.high = match self.high {
                Some(high) => Some(front.index.min(high)),
                None => Some(front.index),
            };
        }
    }

    /// Drops the entries from this index on, for a run that begins there; drops all if that leaves a hole.
    pub(super) fn give_way(&mut self, index: u64)
        ensures shows { shown self.new ≡ under (shown self.old) index }
        ensures room { promise self.new ≡ promise self.old }
        ensures bounds { IsBoundAs self.old self.new }
        ensures runs { runs_of self.new ≤ runs_of self.old }
    {
        let end = self.first + self.places.len() as u64;
        let past = self.first < end && end < index;
        let keep = if past {
            0
        } else {
            index.saturating_sub(self.first) as usize
        };
        if past || self.first >= index || self.places.len() == 0 {
            self.first = index;
        }
        self.rewritten = self.rewritten.min(keep);
        self.places.truncate(keep);
    }
}
