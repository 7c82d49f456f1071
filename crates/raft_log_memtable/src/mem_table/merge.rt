//! Merges tables that were read from segments: two that follow one another, and Append over Rewrite.
ghost use Rattle.std.specs.Prelude.{◌≡◌, ◌||◌, max, OnOk, OnErr, IfErr};
ghost use Rattle.raft_log_memtable_index.specs.Shown.{span};
ghost use Rattle.raft_log_memtable_index.specs.Bridge.{unmarked};
ghost use Rattle.raft_log_memtable_index.specs.Replayed.{
  both_noted,
  joined,
  left,
  merged,
  nothing_replayed,
  with_newer,
  LeavesHole,
};
ghost use Rattle.raft_log_model_laws.specs.Summary.{lesser};
ghost use Rattle.raft_log_memtable.specs.Files.{with_read_group};
ghost use Rattle.raft_log_memtable.specs.Replays.{begin_alone, leaves_hole, HasTableRoom, MergeRefused};
ghost use Rattle.raft_log_memtable.specs.Room.{IsForgotten};
ghost use Rattle.raft_log_memtable.specs.Table.{promise, replay_of, shown, window_of, IsBoundAs};

use super::MemTable;
use crate::ends::Ends;
use raft_log_memtable_index::{GroupFiles, lesser};
use raft_log_record_base::{Error, Result};
use std::alloc::AllocError;

impl MemTable {
    /// Joins a table that was read from the next segment of the same queue. The entries that it leaves here stay, with
    /// its own over them, and its keys over these. If it has a Clean, only it counts.
    ///
    /// Fails with `Hole` if its entries, in Append, start past the end of those that stay, or with `Memory`. In Rewrite
    /// such entries replace all. Whether it succeeds or fails, nothing is promised any more. If it fails, nothing else
    /// changes.
    pub fn merge_newer_neighbor(&mut self, newer: MemTable) -> Result<()>
        ensures ok { OnOk result (replay_of self.new ≡ joined (replay_of self.old) (replay_of newer)) }
        ensures fits { OnOk result (LeavesHole (shown self.old) (replay_of newer) → ⊥) }
        ensures err { OnErr result (replay_of self.new ≡ replay_of self.old) }
        ensures errors { IfErr result (λ e. MergeRefused (shown self.old) (replay_of newer) e) }
        ensures ends { (promise self.new).ends ≡ span (shown self.new) }
        ensures forgotten { IsForgotten (promise self.new) }
    {
        self.take_back();
        if newer.cleaned {
            *self = newer;
            self.take_back();
            return Ok(());
        }
        if self.leaves_hole(&newer) {
            return Err(Error::Hole);
        }
        self.make_room_for(&newer)?;
        self.join(newer);
        Ok(())
    }

    /// Joins this table to one without anything before it: without entries it then begins at 0. Nothing is promised any
    /// more.
    pub fn follow_nothing(&mut self)
        ensures read { replay_of self.new ≡ joined nothing_replayed (replay_of self.old) }
        ensures ends { (promise self.new).ends ≡ span (shown self.new) }
        ensures forgotten { IsForgotten (promise self.new) }
    {
        self.first = self.begin_alone();
        self.take_back();
    }

    /// The first index of the entries, if nothing is before them.
    fn begin_alone(&self) -> u64
        ensures { result ≡ begin_alone (shown self.now) }
    {
        if self.cleaned || self.places.len() > 0 {
            self.first
        } else {
            0
        }
    }

    /// Merges a table that was read from all of Append over this one, which was read from all of Rewrite. The
    /// tombstones of this one aren't owed any more. If the entries of Append start past the end of those that stay
    /// here, none of these stays. Whether it succeeds or fails, nothing is promised any more. If it fails, nothing else
    /// changes.
    pub fn merge_append_table(&mut self, append: MemTable) -> Result<(), AllocError>
        ensures ok { OnOk result (shown self.new ≡ merged (shown self.old) (replay_of append)) }
        ensures err { OnErr result (replay_of self.new ≡ replay_of self.old) }
        ensures ends { (promise self.new).ends ≡ span (shown self.new) }
        ensures forgotten { IsForgotten (promise self.new) }
    {
        self.take_back();
        if append.cleaned {
            *self = append;
            self.take_back();
            return Ok(());
        }
        self.make_room_for(&append)?;
        self.unmark();
        self.join(append);
        Ok(())
    }

    /// Removes all owed tombstones. The room stays.
    fn unmark(&mut self)
        ensures shows { shown self.new ≡ unmarked (shown self.old) }
        ensures room { promise self.new ≡ promise self.old }
        ensures bounds { IsBoundAs self.old self.new }
    {
        self.cleaned = false;
        self.compacted = false;
        self.keys.unmark();
    }

    /// Makes room for what another table has. Whether it succeeds or fails, `shown` stays. If it fails, nothing is
    /// promised.
    fn make_room_for(&mut self, newer: &MemTable) -> Result<(), AllocError>
        requires { IsForgotten (promise self.old) }
        ensures shows { shown self.new ≡ shown self.old }
        ensures bounds { IsBoundAs self.old self.new }
        ensures ends { (promise self.new).ends ≡ (promise self.old).ends }
        ensures room { OnOk result (HasTableRoom self.new newer.now) }
        ensures forgotten { OnErr result (IsForgotten (promise self.new)) }
    {
        self.places.make_room(newer.places.len())?;
        let made = self.keys.make_room_for(&newer.keys);
        if made.is_err() {
            self.places.forget_room();
        }
        made
    }

    /// Puts a later table without a Clean over this one. There must be room for it.
    fn join(&mut self, newer: MemTable)
        requires { HasTableRoom self.old newer }
        ensures shows { shown self.new ≡ with_newer (shown self.old) (replay_of newer) }
        ensures low { self.new.low ≡ max newer.low self.old.low }
        ensures high { self.new.high ≡ lesser newer.high self.old.high }
        ensures ends { (promise self.new).ends ≡ span (shown self.new) }
        ensures forgotten { IsForgotten (promise self.new) }
    {
        self.join_bounds(&newer);
        let rewritten = newer.rewritten;
        self.narrow(newer.low, newer.high);
        if newer.places.len() > 0 {
            self.give_way(newer.first);
        }
        self.places.append(newer.places);
        self.rewritten += rewritten;
        self.keys.join(newer.keys);
        self.take_back();
    }

    /// Notes the files of an atomic group of Rewrite that was read, with those that were noted before.
    pub fn note_read_group(&mut self, files: GroupFiles)
        ensures read { replay_of self.new ≡ with_read_group (replay_of self.old) files }
        ensures room { promise self.new ≡ promise self.old }
    {
        self.noted = both_noted(self.noted, Some(files));
    }

    /// Joins the Compact, the files of groups and the bounds of a later table.
    fn join_bounds(&mut self, newer: &MemTable)
        ensures { self.new ≡ record self.old {
          compacted = newer.now.compacted || self.old.compacted;
          noted = both_noted self.old.noted newer.now.noted;
          low = max newer.now.low self.old.low;
          high = lesser newer.now.high self.old.high;
        } }
    {
        self.compacted = newer.compacted || self.compacted;
        self.noted = both_noted(self.noted, newer.noted);
        self.low = newer.low.max(self.low);
        self.high = lesser(newer.high, self.high);
    }

    /// Whether the entries of a later table, which are in Append, start past the end of those that it leaves.
    fn leaves_hole(&self, newer: &MemTable) -> bool
        ensures { result ≡ leaves_hole (shown self.now) (replay_of newer.now) }
    {
        let left = self.left(newer.low, newer.high);
        newer.places.len() > 0
            && !(newer.rewritten > 0)
            && left.first < left.end
            && left.end < newer.first
    }

    /// The ends of the entries from an index on, below another.
    fn left(&self, low: u64, high: Option<u64>) -> Ends
        ensures { window_of result ≡ span (left (shown self.now) low high) }
    {
        let len = self.places.len();
        let count = (low.saturating_sub(self.first) as usize).min(len);
        let first = self.first + count as u64;
        let rest = (len - count) as u64;
        let end = match high {
            Some(high) => first + high.saturating_sub(first).min(rest),
            None => first + rest,
        };
        Ends { first, end }
    }

    /// Keeps only the entries from an index on, below another.
    fn narrow(&mut self, low: u64, high: Option<u64>)
        ensures shows { shown self.new ≡ left (shown self.old) low high }
        ensures room { promise self.new ≡ promise self.old }
        ensures bounds { IsBoundAs self.old self.new }
    {
        let count = (low.saturating_sub(self.first) as usize).min(self.places.len());
        self.rewritten = self.rewritten.saturating_sub(count);
        self.first += count as u64;
        self.places.drop_front(count);
        if let Some(high) = high {
            let keep = high.saturating_sub(self.first) as usize;
            self.rewritten = self.rewritten.min(keep);
            self.places.truncate(keep);
        }
    }
}

/// The files of the groups of two tables.
fn both_noted(old: Option<GroupFiles>, new: Option<GroupFiles>) -> Option<GroupFiles>
    ensures { result ≡ both_noted old new }
{
    match (old, new) {
        (Some(old), Some(new)) => Some(GroupFiles {
            from: old.from.min(new.from),
            to: old.to.max(new.to),
        }),
        (None, new) => new,
        (old, None) => old,
    }
}
