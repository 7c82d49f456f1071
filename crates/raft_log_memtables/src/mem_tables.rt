//! The memtables of all groups.
ghost use Rattle.std.specs.Prelude.{◌≡◌, ◌==◌, ◌+◌, ℕ, false, true, option_copied, OnOk, OnErr, IfOk, IfErr};
ghost use Rattle.raft_log_model_laws.specs.Groups.{of_group};
ghost use Rattle.raft_log_memtable_index.specs.Replayed.{nothing_replayed};
ghost use Rattle.raft_log_memtable_index.specs.Shown.{nothing_shown, span};
ghost use Rattle.raft_log_record_frames.specs.Marking.{has_mark_key};
ghost use Rattle.raft_log_record_frames.specs.Meaning.{meaning, tagged, tagged_items};
ghost use Rattle.raft_log_extents.specs.Entries.{place_of};
ghost use Rattle.raft_log_memtable.specs.Room.{CanTake};
ghost use Rattle.raft_log_memtables.specs.Batch.{
  all_kept,
  all_shown,
  counts_at_end,
  mentions,
  BatchRefused,
  IsApplied,
  IsPrepared,
  IsReadyFor,
  IsTakenBack,
  ItemRefused,
  PromisesAll,
};
ghost use Rattle.raft_log_memtables.specs.Tables.{
  counts,
  has_table,
  promise_of,
  replayed_of,
  shown_of,
  table_of,
  IsAtRest,
  PromisesSame,
  ShowsSame,
  TablesSame,
};

mod joining;
mod owing;
mod replaying;
mod rewriting;
mod walking;

use crate::group_table::GroupTable;
use raft_log_memtable::MemTable;
use raft_log_record_base::{FileSeq, Result};
use raft_log_record_frames::Marking;
use raft_log_record_items::LogItem;
use std::alloc::{AllocError, Global};
use std::collections::BTreeMap;

/// The memtables of all groups.
///
/// `prepare` allocates all memory for a batch before it is written, and changes nothing of what the tables show.
/// `apply_append_writes` follows the write, and can't fail.
#[derive(Drop)]
pub struct MemTables {
    alloc: Global,
    groups: BTreeMap<u64, GroupTable>,
}

impl MemTables {
    /// Tables without any group.
    pub fn new(alloc: Global) -> MemTables
        ensures shows { (g : ℕ) → shown_of result g ≡ nothing_shown }
        ensures replay { (g : ℕ) → replayed_of result g ≡ nothing_replayed }
        ensures counts { (g : ℕ) → counts result g ≡ false }
        ensures rest { IsAtRest result }
    {
        MemTables {
            alloc,
            groups: BTreeMap::new(alloc),
        }
    }

    /// The table of a group, if the group counts.
    pub fn get(&self, group: u64) -> Option<&MemTable>
        ensures { option_copied result ≡ table_of self.now group }
    {
        let found = self.groups.get(&group)?;
        if found.counts {
            Some(&found.table)
        } else {
            None
        }
    }

    /// Makes room for a batch that is to be written to Append: for all of it, or for none.
    ///
    /// Nothing may be prepared for Append yet. Fails with `Hole` only if entries of a group leave a hole or end past
    /// 2^64 - 1, otherwise with `Memory`. Whether it succeeds or fails, the tables show the same, and what was promised
    /// to other groups stays. If it fails, all that was promised to the batch's groups is taken back, even by earlier
    /// calls.
    pub fn prepare(&mut self, items: &[LogItem]) -> Result<()>
        requires { IsAtRest self.old }
        ensures shows { ShowsSame self.old self.new }
        ensures ok { OnOk result (IsReadyFor self.new (tagged_items (λ e. e) items.now)) }
        ensures promises { OnOk result (PromisesAll self.old self.new (tagged_items (λ e. e) items.now)) }
        ensures err { OnErr result (IsAtRest self.new) }
        ensures taken_back { OnErr result (IsTakenBack self.old self.new items.now) }
        ensures errors { IfErr result
            (BatchRefused (shown_of self.old) (tagged_items (λ e. e) items.now)) }
    {
        let prepared = self.prepare_all(items);
        if prepared.is_err() {
            self.take_back(items);
        }
        prepared
    }

    /// Takes back all that was promised to the groups of a batch that isn't written, for Append and for Rewrite. The
    /// tables show the same.
    pub fn take_back(&mut self, items: &[LogItem])
        ensures shows { ShowsSame self.old self.new }
        ensures rest { (g : ℕ) → mentions g items.now ≡ true
            → (promise_of self.new g).ends ≡ span (shown_of self.new g) }
        ensures moves { (g : ℕ) → mentions g items.now ≡ true → (promise_of self.new g).moves ≡ 0 }
        ensures room { (g : ℕ) → mentions g items.now ≡ true → (promise_of self.new g).wanted ≡ 0 }
        ensures others { (g : ℕ) → mentions g items.now ≡ false
            → promise_of self.new g ≡ promise_of self.old g }
        ensures tables { TablesSame self.old self.new }
        ensures unwritten { IsReadyFor self.old (tagged_items (λ e. e) items.now) → IsAtRest self.new }
        ensures rested { IsAtRest self.old → IsAtRest self.new }
    {
        for item in items {
            self.take_back_of(item.raft_group_id);
        }
    }

    /// Applies a batch that was prepared, and then written to this file of Append, item after item.
    pub fn apply_append_writes(&mut self, items: Vec<LogItem>, file: FileSeq)
        requires { IsReadyFor self.old (tagged_items (λ e. e) items.items) }
        ensures shows { (g : ℕ) → shown_of self.new g
            ≡ all_shown file (shown_of self.old) (tagged_items place_of items.items) g }
        ensures counts { (g : ℕ) → counts self.new g
            ≡ counts_at_end (counts self.old g) (of_group g (tagged_items place_of items.items)) }
        ensures promises { (g : ℕ) → promise_of self.new g
            ≡ all_kept (promise_of self.old g) (of_group g (tagged_items place_of items.items)) }
        ensures tables { TablesSame self.old self.new }
        ensures rest { IsAtRest self.new }
    {
        for item in items {
            self.apply_unless_mark(item, file);
        }
    }

    /// Applies an item that was prepared and is in this file of Append. A mark changes nothing.
    fn apply_unless_mark(&mut self, item: LogItem, file: FileSeq)
        requires table { has_mark_key item ≡ false → has_table self.old item.raft_group_id ≡ true }
        requires room { has_mark_key item ≡ false → CanTake (shown_of self.old item.raft_group_id)
            (promise_of self.old item.raft_group_id) (meaning place_of item.content) }
        ensures mark { has_mark_key item ≡ true → self.new ≡ self.old }
        ensures applied { has_mark_key item ≡ false → IsApplied file self.old self.new (tagged place_of item) }
    {
        if !is_mark(&item) {
            self.apply_item(item, file);
        }
    }

    /// Applies an item that was prepared and is in this file of Append.
    fn apply_item(&mut self, item: LogItem, file: FileSeq)
        requires table { has_table self.old item.raft_group_id ≡ true }
        requires room { CanTake (shown_of self.old item.raft_group_id) (promise_of self.old item.raft_group_id)
            (meaning place_of item.content) }
        ensures { IsApplied file self.old self.new (tagged place_of item) }
    {
        if let Some(found) = self.groups.get_mut(&item.raft_group_id) {
            found.commit(self.alloc, item.content, file);
        }
    }

    /// Takes back what was prepared for a group. The tables show the same.
    fn take_back_of(&mut self, group: u64)
        ensures shows { ShowsSame self.old self.new }
        ensures rest { (promise_of self.new group).ends ≡ span (shown_of self.new group) }
        ensures moves { (promise_of self.new group).moves ≡ 0 }
        ensures room { (promise_of self.new group).wanted ≡ 0 }
        ensures others { (g : ℕ) → (group == g) ≡ false → promise_of self.new g ≡ promise_of self.old g }
        ensures tables { TablesSame self.old self.new }
    {
        if let Some(found) = self.groups.get_mut(&group) {
            found.take_back();
        }
    }

    /// Makes room for a batch, and stops at the first failure. The tables show the same.
    fn prepare_all(&mut self, items: &[LogItem]) -> Result<()>
        requires { IsAtRest self.old }
        ensures shows { ShowsSame self.old self.new }
        ensures ok { OnOk result (IsReadyFor self.new (tagged_items (λ e. e) items.now)) }
        ensures promises { OnOk result (PromisesAll self.old self.new (tagged_items (λ e. e) items.now)) }
        ensures err { OnErr result ((g : ℕ) → mentions g items.now ≡ false
            → (promise_of self.new g ≡ promise_of self.old g) × (has_table self.new g ≡ has_table self.old g)) }
        ensures errors { IfErr result
            (BatchRefused (shown_of self.old) (tagged_items (λ e. e) items.now)) }
    {
        for item in items {
            if !is_mark(item) {
                self.prepare_item(item)?;
            }
        }
        Ok(())
    }

    /// Makes room for an item that is to be written. Whether it succeeds or fails, the tables show the same.
    fn prepare_item(&mut self, item: &LogItem) -> Result<()>
        ensures shows { ShowsSame self.old self.new }
        ensures ok { OnOk result (IsPrepared self.old self.new (tagged (λ e. e) item.now)) }
        ensures err { OnErr result (PromisesSame self.old self.new) }
        ensures tables { OnErr result (TablesSame self.old self.new) }
        ensures errors { IfErr result (λ e. ItemRefused (promise_of self.old item.now.raft_group_id).ends
            (meaning (λ e. e) item.now.content) e) }
    {
        if let Some(found) = self.groups.get_mut(&item.raft_group_id) {
            return found.prepare(&item.content);
        }
        let mut fresh = GroupTable::new(self.alloc);
        fresh.prepare(&item.content)?;
        self.groups.insert(item.raft_group_id, fresh)?;
        Ok(())
    }
}

/// Whether an item is a mark of an atomic group, even a broken one.
fn is_mark(item: &LogItem) -> bool
    ensures { result ≡ has_mark_key item.now }
{
    match Marking::parse(item) {
        Marking::Unmarked => false,
        Marking::Part(_, _) => true,
        Marking::Broken => true,
    }
}
