//! Reads a table for a rewrite, and its keys in their order.
ghost use Rattle.std.specs.Fn.{CalledAtTwo};
ghost use Rattle.std.specs.Prelude.{◌≡◌, ◌++◌, List, ℕ, option_copied, IfOk, OnOk, OnErr};
ghost use Rattle.raft_log_memtable_index.specs.Listing.{appended_values, in_direction, rewritten_values, values_within, AddsAll, ListsAll, ListsMarked, Visits};
ghost use Rattle.raft_log_memtable.specs.Reads.{appended_entries, has_before, rewritten_entries, StandIn};
ghost use Rattle.raft_log_memtable.specs.Table.{shown};

use super::MemTable;
use raft_log_record_base::{FileId, FileSeq, LogQueue};
use raft_log_record_items::{Bytes, EntryIndex};
use std::alloc::AllocError;

impl MemTable {
    /// Adds the entries in Append from the first on, before the first one in a file past the gate. If it fails, nothing
    /// is added.
    pub fn fetch_entry_indexes_before(
        &self,
        gate: FileSeq,
        entries: &mut Vec<EntryIndex>,
    ) -> Result<(), AllocError>
        ensures ok { OnOk result (entries.new.items
            ≡ entries.old.items ++ appended_entries (shown self.now) gate) }
        ensures err { OnErr result (entries.new.items ≡ entries.old.items) }
    {
        let appended = self.places.len() - self.rewritten;
        let count = self.places.count_up_to(self.rewritten, appended, gate);
        entries.reserve(count)?;
        self.copy_entries(self.rewritten, count, entries);
        Ok(())
    }

    /// Adds all entries in Rewrite. If it fails, nothing is added.
    pub fn fetch_rewritten_entry_indexes(
        &self,
        entries: &mut Vec<EntryIndex>,
    ) -> Result<(), AllocError>
        ensures ok { OnOk result (entries.new.items
            ≡ entries.old.items ++ rewritten_entries (shown self.now)) }
        ensures err { OnErr result (entries.new.items ≡ entries.old.items) }
    {
        entries.reserve(self.rewritten)?;
        self.copy_entries(0, self.rewritten, entries);
        Ok(())
    }

    /// Adds the keys and values that are in Append in a file up to the gate, in the order of the keys. If it fails,
    /// nothing is added.
    pub fn fetch_kvs_before(
        &self,
        gate: FileSeq,
        pairs: &mut Vec<(Bytes, Bytes)>,
    ) -> Result<(), AllocError>
        ensures ok { OnOk result
            (AddsAll (appended_values gate (shown self.now)) pairs.old.items pairs.new.items) }
        ensures err { OnErr result (pairs.new.items ≡ pairs.old.items) }
    {
        self.keys.fetch_values(Some(gate), pairs)
    }

    /// Adds the keys and values that are in Rewrite, in the order of the keys. If it fails, nothing is added.
    pub fn fetch_rewritten_kvs(&self, pairs: &mut Vec<(Bytes, Bytes)>) -> Result<(), AllocError>
        ensures ok { OnOk result
            (AddsAll (rewritten_values (shown self.now)) pairs.old.items pairs.new.items) }
        ensures err { OnErr result (pairs.new.items ≡ pairs.old.items) }
    {
        self.keys.fetch_values(None, pairs)
    }

    /// The number of entries and values in Rewrite, at most 2^64 - 1.
    pub fn standing_count(&self) -> u64
        ensures { StandIn (shown self.now) result }
    {
        (self.rewritten as u64).saturating_add(self.keys.rewritten_count())
    }

    /// Whether there are `count` entries, and the last of the first `count` is in a file up to the gate; true if
    /// `count` is 0. Each file of Append is past all of Rewrite.
    pub fn has_at_least_some_entries_before(&self, gate: FileId, count: usize) -> bool
        ensures { result ≡ has_before (shown self.now) gate count }
    {
        let Some(position) = count.checked_sub(1) else {
            return true;
        };
        let queue = if position < self.rewritten {
            LogQueue::Rewrite
        } else {
            LogQueue::Append
        };
        match self.places.get(position) {
            Some(place) => FileId::new(queue, place.file) <= gate,
            None => false,
        }
    }

    /// Calls back with each key that isn't below the start and is below the end, if these are given, and with its
    /// value. Keys are visited in the order of their bytes, or backwards if `reverse`, up to the first call that
    /// returns false. It takes time in the number of keys between the bounds, those without a value included.
    pub fn scan<F: FnMut(&[u8], &[u8]) -> bool>(
        &self,
        start: Option<&[u8]>,
        end: Option<&[u8]>,
        reverse: bool,
        callback: F,
    )
        requires { F.IsAlwaysCallable callback }
        ensures { (es : List (List ℕ × List ℕ))
            × ListsAll (values_within (option_copied start.entry) (option_copied end.entry)
            (shown self.now)) es
            × Visits (CalledAtTwo F.FnMut) callback (in_direction reverse es) }
    {
        self.keys.scan(start, end, reverse, callback);
    }

    /// Adds the keys from the start on and below the end, if these are given, and their values, in the order of the
    /// keys. If it fails, nothing is added. It takes time in the number of keys between the bounds, those without a
    /// value included.
    pub fn fetch_kvs_within(
        &self,
        start: Option<&[u8]>,
        end: Option<&[u8]>,
        pairs: &mut Vec<(Bytes, Bytes)>,
    ) -> Result<(), AllocError>
        ensures ok { OnOk result
            (AddsAll (values_within (option_copied start.entry) (option_copied end.entry) (shown self.now))
            pairs.old.items pairs.new.items) }
        ensures err { OnErr result (pairs.new.items ≡ pairs.old.items) }
    {
        self.keys.fetch_within(start, end, pairs)
    }

    /// The keys whose Del is owed to Rewrite, in the order of their bytes.
    pub fn owed_deletes(&self) -> Result<Vec<Bytes>, AllocError>
        ensures { IfOk result (λ keys. ListsMarked (shown self.now).deleted keys.items) }
    {
        self.keys.marked()
    }
}
