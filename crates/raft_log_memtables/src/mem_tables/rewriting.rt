//! Moves what was copied to Rewrite: room for the places is made before the write, and they move after it.
ghost use Rattle.std.specs.Prelude.{◌≡◌, ◌≤◌, true, false, ℕ, OnOk, OnErr};
ghost use Rattle.raft_log_record_frames.specs.Meaning.{meaning, tagged, tagged_items};
ghost use Rattle.raft_log_extents.specs.Entries.{place_of};
ghost use Rattle.raft_log_memtable.specs.Room.{count_of};
ghost use Rattle.raft_log_memtables.specs.Batch.{mentions, IsTakenBack};
ghost use Rattle.raft_log_memtables.specs.Rewriting.{
  MayMove,
  PromisesMove,
  PromisesMoves,
  TakesRewritten,
  RewritesOne,
};
ghost use Rattle.raft_log_memtables.specs.Tables.{
  has_table,
  promise_of,
  IsAtRest,
  PromisesSame,
  ShowsSame,
  TablesSame,
};

use super::{MemTables, is_mark};
use raft_log_record_base::FileSeq;
use raft_log_record_items::LogItem;
use std::alloc::AllocError;

impl MemTables {
    /// Makes room for the places of a batch that is to be written to Rewrite, in addition to what is prepared already.
    /// That lets the batches of an atomic group be prepared one after another.
    ///
    /// Whether it succeeds or fails, the tables show the same, and what was promised to other groups stays. If it
    /// fails, all that was promised to its groups is taken back, even by earlier calls.
    pub fn prepare_rewrite(&mut self, items: &[LogItem]) -> Result<(), AllocError>
        ensures shows { ShowsSame self.old self.new }
        ensures ok { OnOk result (PromisesMoves self.old self.new (tagged_items (λ e. e) items.now)) }
        ensures ready { OnOk result (MayMove self.new (tagged_items (λ e. e) items.now)) }
        ensures err { OnErr result (IsTakenBack self.old self.new items.now) }
        ensures tables { TablesSame self.old self.new }
        ensures rest { IsAtRest self.old → IsAtRest self.new }
    {
        let prepared = self.prepare_copies(items);
        if prepared.is_err() {
            self.take_back(items);
        }
        prepared
    }

    /// Applies a batch that was prepared, and then written to this file of Rewrite. Its entries and values that are
    /// still there are in that file from now on. With a gate, this includes what is in Append in a file up to it;
    /// without one, nothing in Append. Tombstones and marks of atomic groups change nothing.
    ///
    /// The batches of an atomic group are applied once its last one is written, and not before.
    pub fn apply_rewrite_writes(&mut self, items: &[LogItem], gate: Option<FileSeq>, file: FileSeq)
        requires { MayMove self.old (tagged_items (λ e. e) items.now) }
        ensures moved { TakesRewritten gate file self.old self.new (tagged_items place_of items.now) }
        ensures rest { IsAtRest self.old → IsAtRest self.new }
    {
        for item in items {
            if !is_mark(item) {
                self.rewrite_item(item, gate, file);
            }
        }
    }

    /// Makes room for the places of a batch, and stops at the first failure. The tables show the same.
    fn prepare_copies(&mut self, items: &[LogItem]) -> Result<(), AllocError>
        ensures shows { ShowsSame self.old self.new }
        ensures ok { OnOk result (PromisesMoves self.old self.new (tagged_items (λ e. e) items.now)) }
        ensures ready { OnOk result (MayMove self.new (tagged_items (λ e. e) items.now)) }
        ensures err { OnErr result ((g : ℕ) → mentions g items.now ≡ false
            → promise_of self.new g ≡ promise_of self.old g) }
        ensures tables { TablesSame self.old self.new }
        ensures rest { IsAtRest self.old → IsAtRest self.new }
    {
        for item in items {
            if !is_mark(item) {
                self.prepare_copy(item)?;
            }
        }
        Ok(())
    }

    /// Makes room for the places of an item, if its group has a table. The tables show the same.
    fn prepare_copy(&mut self, item: &LogItem) -> Result<(), AllocError>
        ensures shows { ShowsSame self.old self.new }
        ensures ok { OnOk result (PromisesMove self.old self.new (tagged (λ e. e) item.now)) }
        ensures err { OnErr result (PromisesSame self.old self.new) }
        ensures tables { TablesSame self.old self.new }
    {
        match self.groups.get_mut(&item.raft_group_id) {
            Some(found) => found.prepare_rewrite(&item.content),
            None => Ok(()),
        }
    }

    /// Applies an item that was prepared, and then written to this file of Rewrite.
    fn rewrite_item(&mut self, item: &LogItem, gate: Option<FileSeq>, file: FileSeq)
        requires { has_table self.old item.now.raft_group_id ≡ true
            → count_of (meaning place_of item.now.content)
            ≤ (promise_of self.old item.now.raft_group_id).moves }
        ensures { RewritesOne gate file self.old self.new (tagged place_of item.now) }
    {
        if let Some(found) = self.groups.get_mut(&item.raft_group_id) {
            found.rewrite(&item.content, gate, file);
        }
    }
}
