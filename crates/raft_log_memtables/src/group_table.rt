//! The table of one group, and whether the group counts.
ghost use Rattle.std.specs.Prelude.{◌≡◌, ◌≤◌, ◌++◌, ◌&&◌, ◌||◌, false, true, map, not, ℕ, OnOk, OnErr, IfErr};
ghost use Rattle.raft_log_record_items.specs.Run.{IsRun};
ghost use Rattle.raft_log_record_items.specs.Writing.{value_of};
ghost use Rattle.raft_log_memtable_index.specs.Bridge.{unmarked};
ghost use Rattle.raft_log_memtable_index.specs.Shown.{nothing_shown, span, stepped, MayFollow};
ghost use Rattle.raft_log_memtable_index.specs.Replayed.{joined, merged, nothing_replayed, replayed, LeavesHole};
ghost use Rattle.raft_log_record_frames.specs.Meaning.{key_meaning, meaning};
ghost use Rattle.raft_log_extents.specs.Entries.{place_of, run_of};
ghost use Rattle.raft_log_memtable.specs.Files.{with_group, with_read_group, NotesGroup};
ghost use Rattle.raft_log_memtable.specs.Replays.{in_append, MergeRefused};
ghost use Rattle.raft_log_memtable.specs.Room.{
  count_of,
  kept,
  no_promise,
  promised,
  taken_back,
  with_moves,
  with_room_of,
  without_moves,
  CanTake,
  IsVacant,
};
ghost use Rattle.raft_log_memtable.specs.Table.{promise, replay_of, shown, RunRefused};
ghost use Rattle.raft_log_memtables.specs.Bare.{HasNothing};

use raft_log_memtable::MemTable;
use raft_log_memtable_index::GroupFiles;
use raft_log_record_base::{FileSeq, LogQueue, Result};
use raft_log_record_items::{
    Bytes, Command, EntryIndex, KeyValue, LogItem, LogItemContent, OpType,
};
use std::alloc::{AllocError, Global};

/// The table of a group, and whether the group counts. A cleaned group keeps its table for the tombstones that are
/// owed. A group that is prepared for its first batch has a table before it counts.
#[derive(Drop)]
pub struct GroupTable {
    /// The table.
    pub(crate) table: MemTable,
    /// Whether the group has had items, and the last one wasn't a Clean.
    pub(crate) counts: bool,
    ghost bare: { counts ≡ false → HasNothing (shown table) },
}

impl GroupTable {
    ghost use Rattle.raft_log_memtables.specs.Batch.{counts_after};
    ghost use Rattle.raft_log_memtables.specs.Owing.{delete_item, owed_commands, AddsOwed};
    ghost use Rattle.raft_log_memtables.specs.Replaying.{MayBeRead, ReadRefused};
    ghost use Rattle.raft_log_memtables.specs.Rewriting.{rewritten_item};
    ghost use Rattle.raft_log_memtables.specs.Tables.{IsNeededTable};

    /// A table without entries, values and tombstones.
    pub(crate) fn new(alloc: Global) -> GroupTable
        ensures shows { shown result.table ≡ nothing_shown }
        ensures room { promise result.table ≡ no_promise }
        ensures replay { replay_of result.table ≡ nothing_replayed }
        ensures counts { result.counts ≡ false }
    {
        GroupTable {
            table: MemTable::new(alloc),
            counts: false,
        }
    }

    /// The table.
    pub fn table(&self) -> &MemTable
        ensures { result.now ≡ self.now.table }
    {
        &self.table
    }

    /// Makes room for an item that is to be written. Fails with `Hole` if its run leaves a hole or ends past 2^64 - 1,
    /// otherwise with `Memory`; then the promise stays. Whether it succeeds or fails, `shown` stays.
    pub(crate) fn prepare(&mut self, content: &LogItemContent) -> Result<()>
        ensures shows { shown self.new.table ≡ shown self.old.table }
        ensures counts { self.new.counts ≡ self.old.counts }
        ensures ok { OnOk result
            (promise self.new.table ≡ promised (promise self.old.table) (meaning (λ e. e) content.now)) }
        ensures follows { OnOk result
            (MayFollow (promise self.old.table).ends (meaning (λ e. e) content.now)) }
        ensures err { OnErr result (promise self.new.table ≡ promise self.old.table) }
        ensures errors { IfErr result
            (λ e. RunRefused (promise self.old.table).ends (meaning (λ e. e) content.now) e) }
    {
        match content {
            LogItemContent::EntryIndexes(entries) => self.table.prepare_append(entries.as_slice()),
            LogItemContent::Command(Command::Clean) => {
                self.table.prepare_clean();
                Ok(())
            }
            LogItemContent::Command(Command::Compact { index }) => {
                self.table.prepare_compact(*index);
                Ok(())
            }
            LogItemContent::Kv(key_value) => {
                self.table.prepare_key(key_value.key.as_slice())?;
                Ok(())
            }
        }
    }

    /// Makes room to move the entries of an item to Rewrite. Whether it succeeds or fails, `shown` stays. If it fails,
    /// the promise stays too.
    pub(crate) fn prepare_rewrite(&mut self, content: &LogItemContent) -> Result<(), AllocError>
        ensures shows { shown self.new.table ≡ shown self.old.table }
        ensures counts { self.new.counts ≡ self.old.counts }
        ensures ok { OnOk result (promise self.new.table
            ≡ with_moves (promise self.old.table) (count_of (meaning (λ e. e) content.now))) }
        ensures err { OnErr result (promise self.new.table ≡ promise self.old.table) }
    {
        match content {
            LogItemContent::EntryIndexes(entries) => self.table.prepare_rewrite(entries.as_slice()),
            _ => Ok(()),
        }
    }

    /// Takes back what was promised. `shown` stays.
    pub(crate) fn take_back(&mut self)
        ensures shows { shown self.new.table ≡ shown self.old.table }
        ensures counts { self.new.counts ≡ self.old.counts }
        ensures room { promise self.new.table
            ≡ taken_back (promise self.old.table) (span (shown self.old.table)) }
    {
        self.table.take_back();
    }

    /// Applies an item that was prepared, and then written to this file of Append.
    pub(crate) fn commit(&mut self, alloc: Global, content: LogItemContent, file: FileSeq)
        requires { CanTake (shown self.old.table) (promise self.old.table) (meaning place_of content) }
        ensures shows { shown self.new.table ≡ stepped file (shown self.old.table) (meaning place_of content) }
        ensures room { promise self.new.table ≡ kept (promise self.old.table) (meaning place_of content) }
        ensures counts { self.new.counts ≡ counts_after self.old.counts (meaning place_of content) }
    {
        self.counts = true;
        match content {
            LogItemContent::EntryIndexes(entries) => self.table.append(entries.as_slice()),
            LogItemContent::Command(Command::Clean) => {
                self.table.clean();
                self.counts = false;
            }
            LogItemContent::Command(Command::Compact { index }) => {
                self.table.compact_to(index);
            }
            LogItemContent::Kv(key_value) => match key_value.op_type {
                OpType::Put => {
                    let bytes = key_value.value.unwrap_or(Bytes::new(alloc));
                    self.table.put(key_value.key.as_slice(), bytes, file);
                }
                OpType::Del => self.table.delete(key_value.key.as_slice()),
            },
        }
    }

    /// Applies an item that was read in a file of a queue. Fails with `Hole` only if, in Append, its run leaves a hole
    /// or ends past 2^64 - 1; otherwise with `Memory`. If it fails, what was read stays. Either way, nothing is
    /// promised for Append any more.
    pub(crate) fn replay(
        &mut self,
        alloc: Global,
        queue: LogQueue,
        content: LogItemContent,
        file: FileSeq,
    ) -> Result<()>
        ensures ok { OnOk result (replay_of self.new.table
            ≡ replayed (in_append queue) file (replay_of self.old.table) (meaning place_of content)) }
        ensures fits { OnOk result
            (MayBeRead (in_append queue) (span (shown self.old.table)) (meaning place_of content)) }
        ensures counts { OnOk result
            (self.new.counts ≡ counts_after self.old.counts (meaning place_of content)) }
        ensures err { OnErr result
            ((replay_of self.new.table ≡ replay_of self.old.table) × (self.new.counts ≡ self.old.counts)) }
        ensures errors { IfErr result (λ e. ReadRefused (in_append queue) (span (shown self.old.table))
            (meaning place_of content) e) }
        ensures ends { (promise self.new.table).ends ≡ span (shown self.new.table) }
    {
        match content {
            LogItemContent::EntryIndexes(entries) => {
                Self::replay_run(&mut self.table, queue, entries.as_slice())?;
            }
            LogItemContent::Command(Command::Clean) => {
                self.table.replay_clean();
                self.counts = false;
                return Ok(());
            }
            LogItemContent::Command(Command::Compact { index }) => {
                self.table.replay_compact(index);
            }
            LogItemContent::Kv(key_value) => {
                Self::replay_key(&mut self.table, alloc, queue, key_value, file)?;
            }
        }
        self.counts = true;
        Ok(())
    }

    /// Joins a table that was read from the next segment. Fails with `Hole` only if its entries leave a hole, otherwise
    /// with `Memory`. If it fails, what was read stays. Either way, nothing is promised for Append any more.
    pub(crate) fn join(&mut self, newer: GroupTable) -> Result<()>
        ensures ok { OnOk result
            (replay_of self.new.table ≡ joined (replay_of self.old.table) (replay_of newer.table)) }
        ensures counts { OnOk result (self.new.counts
            ≡ newer.counts || (self.old.counts && not (shown newer.table).cleaned)) }
        ensures fits { OnOk result (LeavesHole (shown self.old.table) (replay_of newer.table) → ⊥) }
        ensures err { OnErr result
            ((replay_of self.new.table ≡ replay_of self.old.table) × (self.new.counts ≡ self.old.counts)) }
        ensures errors { IfErr result
            (λ e. MergeRefused (shown self.old.table) (replay_of newer.table) e) }
        ensures ends { (promise self.new.table).ends ≡ span (shown self.new.table) }
    {
        let GroupTable { table, counts } = newer;
        let cleaned = table.owes_clean();
        self.table.merge_newer_neighbor(table)?;
        self.counts = counts || (self.counts && !cleaned);
        Ok(())
    }

    /// Puts a table that was read from all of Append over this one, which was read from all of Rewrite. If it fails,
    /// `shown` stays. Either way, nothing is promised for Append any more.
    pub(crate) fn merge(&mut self, append: GroupTable) -> Result<(), AllocError>
        ensures ok { OnOk result
            (shown self.new.table ≡ merged (shown self.old.table) (replay_of append.table)) }
        ensures counts { OnOk result (self.new.counts
            ≡ append.counts || (self.old.counts && not (shown append.table).cleaned)) }
        ensures err { OnErr result
            ((shown self.new.table ≡ shown self.old.table) × (self.new.counts ≡ self.old.counts)) }
        ensures ends { (promise self.new.table).ends ≡ span (shown self.new.table) }
    {
        let GroupTable { table, counts } = append;
        let cleaned = table.owes_clean();
        self.table.merge_append_table(table)?;
        self.counts = counts || (self.counts && !cleaned);
        Ok(())
    }

    /// Joins this table to an empty one before it.
    pub(crate) fn follow_nothing(&mut self)
        ensures read { replay_of self.new.table ≡ joined nothing_replayed (replay_of self.old.table) }
        ensures counts { self.new.counts ≡ self.old.counts }
        ensures ends { (promise self.new.table).ends ≡ span (shown self.new.table) }
    {
        self.table.follow_nothing();
    }

    /// Removes all owed tombstones.
    pub(crate) fn clear_marks(&mut self)
        ensures shows { shown self.new.table ≡ unmarked (shown self.old.table) }
        ensures counts { self.new.counts ≡ self.old.counts }
        ensures room { promise self.new.table ≡ with_room_of (promise self.old.table) (shown self.old.table) }
    {
        self.table.clear_marks();
    }

    /// Removes all owed tombstones. Returns whether the table is needed: it isn't if the group doesn't count, the table
    /// then shows nothing, and nothing is promised.
    pub(crate) fn settle(&mut self) -> bool
        ensures shows { shown self.new.table ≡ unmarked (shown self.old.table) }
        ensures counts { self.new.counts ≡ self.old.counts }
        ensures room { promise self.new.table ≡ with_room_of (promise self.old.table) (shown self.old.table) }
        ensures needed { result ≡ true → IsNeededTable self.new }
        ensures vacant { result ≡ false → (self.new.counts ≡ false)
            × IsVacant (shown self.new.table) (promise self.new.table) }
    {
        self.clear_marks();
        let vacant = self.table.is_vacant();
        self.counts || !vacant
    }

    /// Adds the tombstones that this table owes to Rewrite, with this group number. If it fails, some may be added.
    pub fn add_owed(&self, group: u64, items: &mut Vec<LogItem>) -> Result<(), AllocError>
        ensures { OnOk result (AddsOwed group (shown self.now.table) items.old.items items.new.items) }
    {
        self.add_commands(group, items)?;
        Self::add_deletes(group, self.table.owed_deletes()?, items)
    }

    /// Adds the Clean and the Compact, if they are owed.
    fn add_commands(&self, group: u64, items: &mut Vec<LogItem>) -> Result<(), AllocError>
        ensures { OnOk result
            (items.new.items ≡ items.old.items ++ owed_commands group (shown self.now.table)) }
    {
        if self.table.owes_clean() {
            items.push(LogItem::new_command(group, Command::Clean))?;
        }
        if let Some(index) = self.table.owed_compact() {
            items.push(LogItem::new_command(group, Command::Compact { index }))?;
        }
        Ok(())
    }

    /// Notes the files of an atomic group of Rewrite that ended, after its items were applied to this table.
    pub(crate) fn note(&mut self, files: GroupFiles)
        ensures exact { NotesGroup files (shown self.old.table) (shown self.new.table) }
        ensures read { replay_of self.new.table
            ≡ record (replay_of self.old.table) { table = with_group self.old.table files } }
        ensures counts { self.new.counts ≡ self.old.counts }
        ensures room { promise self.new.table ≡ promise self.old.table }
    {
        self.table.apply_rewrite_atomic_group(files);
    }

    /// Notes the files of an atomic group of Rewrite that was read, along with the files noted before. Its items were
    /// already applied to this table.
    pub(crate) fn note_read(&mut self, files: GroupFiles)
        ensures read { replay_of self.new.table ≡ with_read_group (replay_of self.old.table) files }
        ensures counts { self.new.counts ≡ self.old.counts }
        ensures room { promise self.new.table ≡ promise self.old.table }
    {
        self.table.note_read_group(files);
    }

    /// Applies an item that was prepared, and then written to this file of Rewrite. Entries and values that are still
    /// there, and that the gate lets move, are in that file from now on.
    pub(crate) fn rewrite(&mut self, content: &LogItemContent, gate: Option<FileSeq>, file: FileSeq)
        requires { count_of (meaning place_of content.now) ≤ (promise self.old.table).moves }
        ensures shows { shown self.new.table
            ≡ rewritten_item gate file (shown self.old.table) (meaning place_of content.now) }
        ensures ends { span (shown self.new.table) ≡ span (shown self.old.table) }
        ensures counts { self.new.counts ≡ self.old.counts }
        ensures room { promise self.new.table
            ≡ without_moves (promise self.old.table) (count_of (meaning place_of content.now)) }
    {
        match content {
            LogItemContent::EntryIndexes(entries) => self.table.rewrite(entries.as_slice(), gate),
            LogItemContent::Command(_) => {}
            LogItemContent::Kv(key_value) => match key_value.op_type {
                OpType::Put => self.table.rewrite_key(key_value.key.as_slice(), gate, file),
                OpType::Del => {}
            },
        }
    }

    /// Applies entries that were read in a queue to a table.
    fn replay_run(table: &mut MemTable, queue: LogQueue, entries: &[EntryIndex]) -> Result<()>
        requires { IsRun entries.now }
        ensures ok { (n : ℕ) → OnOk result (replay_of table.new
            ≡ replayed (in_append queue) n (replay_of table.old) (run_of entries.now)) }
        ensures fits { OnOk result
            (MayBeRead (in_append queue) (span (shown table.old)) (run_of entries.now)) }
        ensures err { OnErr result (replay_of table.new ≡ replay_of table.old) }
        ensures errors { IfErr result
            (λ e. ReadRefused (in_append queue) (span (shown table.old)) (run_of entries.now) e) }
        ensures ends { (promise table.new).ends ≡ span (shown table.new) }
    {
        match queue {
            LogQueue::Append => table.replay_append(entries),
            LogQueue::Rewrite => {
                table.replay_rewrite(entries)?;
                Ok(())
            }
        }
    }

    /// Applies a value or a Del that was read in a file of a queue to a table.
    fn replay_key(
        table: &mut MemTable,
        alloc: Global,
        queue: LogQueue,
        key_value: KeyValue,
        file: FileSeq,
    ) -> Result<(), AllocError>
        ensures ok { OnOk result (replay_of table.new
            ≡ replayed (in_append queue) file (replay_of table.old) (key_meaning key_value.op_type key_value.key (value_of key_value))) }
        ensures err { OnErr result (replay_of table.new ≡ replay_of table.old) }
        ensures ends { (promise table.new).ends ≡ span (shown table.new) }
    {
        match key_value.op_type {
            OpType::Put => {
                let bytes = key_value.value.unwrap_or(Bytes::new(alloc));
                table.replay_put(queue, key_value.key.as_slice(), bytes, file)
            }
            OpType::Del => table.replay_delete(key_value.key.as_slice()),
        }
    }

    /// Adds Dels of a group's keys. If it fails, some may be added.
    fn add_deletes(group: u64, keys: Vec<Bytes>, items: &mut Vec<LogItem>) -> Result<(), AllocError>
        ensures { OnOk result (items.new.items ≡ items.old.items ++ map (delete_item group) keys.items) }
    {
        for key in keys {
            items.push(LogItem::new_kv(group, OpType::Del, key, None))?;
        }
        Ok(())
    }
}
