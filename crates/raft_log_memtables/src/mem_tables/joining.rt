//! Merges tables that were read from segments: two that follow one another, and Append over Rewrite.
ghost use Rattle.std.specs.Prelude.{◌≡◌, ◌==◌, false, true, ℕ, OnOk, OnErr, IfErr};
ghost use Rattle.raft_log_record_base.specs.declared.errors.Error.TheVariants as errors;
ghost use Rattle.raft_log_memtable_index.specs.Bridge.{unmarked};
ghost use Rattle.raft_log_memtables.specs.Joining.{
  JoinRefused,
  JoinsAll,
  JoinsOne,
  JoinsSome,
  MergesAll,
  MergesOne,
  MergesSome,
  SameAt,
  TableRefused,
};
ghost use Rattle.raft_log_memtables.specs.Replaying.{StaysAt};
ghost use Rattle.raft_log_memtable.specs.Table.{replay_of};
ghost use Rattle.raft_log_memtable.specs.Room.{with_room_of};
ghost use Rattle.raft_log_memtables.specs.Tables.{counts, has_table, promise_of, shown_of, IsAtRest, IsNeeded};

use super::MemTables;
use crate::group_table::GroupTable;
use raft_log_record_base::Result;
use std::alloc::AllocError;

impl MemTables {
    /// Joins tables that were read from the next segment of the same queue, group by group.
    ///
    /// Fails with `Hole` only if, in Append, the later entries of a group leave a hole after what remains of the
    /// earlier ones; otherwise with `Memory`. If it fails, some groups have both segments joined, and the others are
    /// unchanged.
    pub fn merge_newer_neighbor(&mut self, newer: MemTables) -> Result<()>
        ensures ok { OnOk result (JoinsAll self.old newer self.new) }
        ensures err { OnErr result (JoinsSome self.old newer self.new) }
        ensures errors { IfErr result (λ e. JoinRefused self.old newer e) }
        ensures rest { IsAtRest self.old → IsAtRest self.new }
    {
        for (group, table) in newer.groups {
            self.join_table(group, table)?;
        }
        Ok(())
    }

    /// Puts tables that were read from all of Append over these, group by group. These were read from all of Rewrite,
    /// and their tombstones aren't owed any more.
    ///
    /// Fails with `Memory`. If it fails, some groups have both queues merged, and the others are unchanged, but without
    /// their tombstones.
    pub fn merge_append_table(&mut self, append: MemTables) -> Result<()>
        ensures ok { OnOk result (MergesAll self.old append self.new) }
        ensures err { OnErr result (MergesSome self.old append self.new) }
        ensures errors { IfErr result (λ e. e ≡ errors.Memory) }
        ensures rest { IsAtRest self.old → IsAtRest self.new }
    {
        self.clear_marks();
        for (group, table) in append.groups {
            self.merge_table(group, table)?;
        }
        Ok(())
    }

    /// Removes all owed tombstones of all groups, once they are written to Rewrite and synced. Keys without a value
    /// lose their room. A group's table is dropped if the group doesn't count, the table shows nothing, and nothing is
    /// promised to it.
    pub fn clear_marks(&mut self)
        ensures shows { (g : ℕ) → shown_of self.new g ≡ unmarked (shown_of self.old g) }
        ensures counts { (g : ℕ) → counts self.new g ≡ counts self.old g }
        ensures promises { (g : ℕ) → promise_of self.new g
            ≡ with_room_of (promise_of self.old g) (shown_of self.old g) }
        ensures needed { (g : ℕ) → has_table self.new g ≡ true → IsNeeded self.new g }
    {
        self.groups.retain(|_, table| table.settle());
    }

    /// Joins a table that was read from the next segment to that of its group. If it fails, what was read stays, but
    /// nothing is promised to the group any more.
    fn join_table(&mut self, group: u64, newer: GroupTable) -> Result<()>
        ensures ok { OnOk result (JoinsOne self.old self.new group newer) }
        ensures err { OnErr result ((g : ℕ) → StaysAt self.old self.new g) }
        ensures errors { IfErr result
            (λ e. TableRefused (shown_of self.old group) (replay_of newer.table) e) }
        ensures rested { IsAtRest self.old → IsAtRest self.new }
    {
        if let Some(found) = self.groups.get_mut(&group) {
            return found.join(newer);
        }
        let mut newer = newer;
        newer.follow_nothing();
        self.groups.insert(group, newer)?;
        Ok(())
    }

    /// Puts a table that was read from all of Append over that of its group. If it fails, all groups show the same, but
    /// nothing is promised to this group any more.
    fn merge_table(&mut self, group: u64, append: GroupTable) -> Result<(), AllocError>
        ensures ok { OnOk result (MergesOne self.old self.new group append) }
        ensures err { OnErr result ((g : ℕ) → SameAt self.old self.new g) }
        ensures rested { IsAtRest self.old → IsAtRest self.new }
    {
        if let Some(found) = self.groups.get_mut(&group) {
            return found.merge(append);
        }
        let mut append = append;
        append.follow_nothing();
        self.groups.insert(group, append)?;
        Ok(())
    }
}
