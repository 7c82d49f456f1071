//! Replays records: each item is applied to its group's table as it is read.
ghost use Rattle.std.specs.Prelude.{◌≡◌, ◌==◌, true, false, ℕ, OnOk, OnErr, IfErr};
ghost use Rattle.raft_log_memtable_index.specs.Shown.{span};
ghost use Rattle.raft_log_record_frames.specs.Marking.{has_mark_key};
ghost use Rattle.raft_log_record_frames.specs.Meaning.{meaning, tagged, tagged_items};
ghost use Rattle.raft_log_extents.specs.Entries.{place_of};
ghost use Rattle.raft_log_memtable.specs.Files.{NotesGroup};
ghost use Rattle.raft_log_memtable.specs.Replays.{in_append};
ghost use Rattle.raft_log_memtables.specs.Joining.{noted_in, read_noted_in};
ghost use Rattle.raft_log_memtables.specs.Replaying.{
  ReadRefused,
  ReadsAll,
  ReadsOne,
  ReadsUpTo,
  RestsAt,
  StaysAt,
};
ghost use Rattle.raft_log_memtables.specs.Tables.{counts, has_table, promise_of, raw_of, replayed_of, shown_of, IsAtRest, PromisesSame};

use super::{MemTables, is_mark};
use crate::group_table::GroupTable;
use raft_log_memtable_index::GroupFiles;
use raft_log_record_base::{FileSeq, LogQueue, Result};
use raft_log_record_items::LogItem;

impl MemTables {
    /// Applies the items of a record that was read in this file of Append. A mark changes nothing.
    ///
    /// Fails with `Hole` only if a run leaves a hole in its group or ends past 2^64 - 1, otherwise with `Memory`. If it
    /// fails, a prefix of the items is applied, and the others aren't.
    pub fn replay_append_writes(&mut self, items: Vec<LogItem>, file: FileSeq) -> Result<()>
        ensures ok { OnOk result (ReadsAll true file self.old self.new (tagged_items place_of items.items)) }
        ensures err { IfErr result
            (λ e. ReadsUpTo true file self.old self.new (tagged_items place_of items.items) e) }
        ensures rest { IsAtRest self.old → IsAtRest self.new }
    {
        self.replay_writes(LogQueue::Append, items, file)
    }

    /// Applies the items of a record that was read in this file of Rewrite. A mark changes nothing. If a run starts
    /// past the index after the last, it replaces all entries.
    ///
    /// Fails with `Memory`. If it fails, a prefix of the items is applied, and the others aren't.
    pub fn replay_rewrite_writes(&mut self, items: Vec<LogItem>, file: FileSeq) -> Result<()>
        ensures ok { OnOk result (ReadsAll false file self.old self.new (tagged_items place_of items.items)) }
        ensures err { IfErr result
            (λ e. ReadsUpTo false file self.old self.new (tagged_items place_of items.items) e) }
        ensures rest { IsAtRest self.old → IsAtRest self.new }
    {
        self.replay_writes(LogQueue::Rewrite, items, file)
    }

    /// Applies the items of a record that was read in this file of a queue.
    fn replay_writes(&mut self, queue: LogQueue, items: Vec<LogItem>, file: FileSeq) -> Result<()>
        ensures ok { OnOk result
            (ReadsAll (in_append queue) file self.old self.new (tagged_items place_of items.items)) }
        ensures err { IfErr result
            (λ e. ReadsUpTo (in_append queue) file self.old self.new (tagged_items place_of items.items) e) }
        ensures rest { IsAtRest self.old → IsAtRest self.new }
    {
        for item in items {
            if !is_mark(&item) {
                self.replay_item(queue, item, file)?;
            }
        }
        Ok(())
    }

    /// Applies an item that was read in this file of a queue. If it fails, what was read stays, but nothing is promised
    /// to its group any more.
    fn replay_item(&mut self, queue: LogQueue, item: LogItem, file: FileSeq) -> Result<()>
        ensures ok { OnOk result (ReadsOne (in_append queue) file self.old self.new (tagged place_of item)) }
        ensures err { OnErr result ((g : ℕ) → StaysAt self.old self.new g) }
        ensures errors { IfErr result (λ e. ReadRefused (in_append queue)
            (span (shown_of self.old item.raft_group_id)) (meaning place_of item.content) e) }
        ensures rest { OnOk result (RestsAt self.new item.raft_group_id) }
        ensures rested { IsAtRest self.old → IsAtRest self.new }
    {
        if let Some(found) = self.groups.get_mut(&item.raft_group_id) {
            return found.replay(self.alloc, queue, item.content, file);
        }
        let mut fresh = GroupTable::new(self.alloc);
        fresh.replay(self.alloc, queue, item.content, file)?;
        self.groups.insert(item.raft_group_id, fresh)?;
        Ok(())
    }

    /// Notes the files of an atomic group of Rewrite that ended, for a group whose items of it are applied. The files
    /// noted before stay noted while something of the group is in a file up to their last one.
    pub fn note_group(&mut self, group: u64, files: GroupFiles)
        ensures exact { has_table self.old group ≡ true
            → NotesGroup files (shown_of self.old group) (shown_of self.new group) }
        ensures noted { replayed_of self.new group ≡ noted_in files (raw_of self.old group) }
        ensures others { (g : ℕ) → (group == g) ≡ false → replayed_of self.new g ≡ replayed_of self.old g }
        ensures counts { (g : ℕ) → counts self.new g ≡ counts self.old g }
        ensures promises { PromisesSame self.old self.new }
        ensures rest { IsAtRest self.old → IsAtRest self.new }
    {
        if let Some(found) = self.groups.get_mut(&group) {
            found.note(files);
        }
    }

    /// Notes the files of an atomic group of Rewrite that was read, for a raft group to which its items were applied.
    /// Files that were noted before stay noted.
    pub fn note_read_group(&mut self, group: u64, files: GroupFiles)
        ensures noted { replayed_of self.new group ≡ read_noted_in files (raw_of self.old group) }
        ensures others { (g : ℕ) → (group == g) ≡ false → replayed_of self.new g ≡ replayed_of self.old g }
        ensures counts { (g : ℕ) → counts self.new g ≡ counts self.old g }
        ensures promises { PromisesSame self.old self.new }
        ensures rest { IsAtRest self.old → IsAtRest self.new }
    {
        if let Some(found) = self.groups.get_mut(&group) {
            found.note_read(files);
        }
    }
}
