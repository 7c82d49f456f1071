//! Reads of many keys, in the order of their bytes.
ghost use Rattle.std.specs.Fn.{CalledAtTwo};
ghost use Rattle.std.specs.Prelude.{◌≡◌, List, None, ℕ, reverse, IfOk, OnOk, OnErr, length, take, option_map, option_copied};
ghost use Rattle.raft_log_memtable_index.specs.Keys.{keys_of, shown_value};
ghost use Rattle.raft_log_memtable_index.specs.Listing.{asked_bytes, bytes_within, in_direction, AddsAll, CountsAll, ListsAll, ListsMarked, Visits};

use super::bounds::bounds;
use super::{HeldValue, KeyMap, KeySlot};
use raft_log_record_base::FileSeq;
use raft_log_record_items::Bytes;
use std::alloc::AllocError;

impl KeyMap {
    /// Adds the keys and values that are in Append in a file up to the gate; without a gate, those that are in Rewrite.
    /// If it fails, nothing is added.
    pub fn fetch_values(
        &self,
        gate: Option<FileSeq>,
        pairs: &mut Vec<(Bytes, Bytes)>,
    ) -> Result<(), AllocError>
        ensures ok { OnOk result
            (AddsAll (λ k. asked_bytes gate ((keys_of self.now).values k)) pairs.old.items pairs.new.items) }
        ensures err { OnErr result (pairs.new.items ≡ pairs.old.items) }
    {
        let len = pairs.len();
        let copied = self.copy_values(gate, pairs);
        if copied.is_err() {
            pairs.truncate(len);
        }
        copied
    }

    /// Adds those keys and values. If it fails, some of them may follow the old ones.
    fn copy_values(
        &self,
        gate: Option<FileSeq>,
        pairs: &mut Vec<(Bytes, Bytes)>,
    ) -> Result<(), AllocError>
        ensures ok { OnOk result
            (AddsAll (λ k. asked_bytes gate ((keys_of self.now).values k)) pairs.old.items pairs.new.items) }
        ensures err { OnErr result (take (length pairs.old.items) pairs.new.items ≡ pairs.old.items) }
    {
        for (key, slot) in self.slots.iter() {
            if let Some(value) = slot.asked(gate) {
                pairs.push(self.copied(key.as_slice(), value)?)?;
            }
        }
        Ok(())
    }

    /// Adds the keys that aren't below the start and are below the end, if these are given, and their values. If it
    /// fails, nothing is added.
    pub fn fetch_within(
        &self,
        start: Option<&[u8]>,
        end: Option<&[u8]>,
        pairs: &mut Vec<(Bytes, Bytes)>,
    ) -> Result<(), AllocError>
        ensures ok { OnOk result (AddsAll (λ k. bytes_within (option_copied start.entry)
            (option_copied end.entry) k ((keys_of self.now).values k)) pairs.old.items pairs.new.items) }
        ensures err { OnErr result (pairs.new.items ≡ pairs.old.items) }
    {
        let len = pairs.len();
        let copied = self.copy_within(start, end, pairs);
        if copied.is_err() {
            pairs.truncate(len);
        }
        copied
    }

    /// Adds those keys and values. If it fails, some of them may follow the old ones.
    fn copy_within(
        &self,
        start: Option<&[u8]>,
        end: Option<&[u8]>,
        pairs: &mut Vec<(Bytes, Bytes)>,
    ) -> Result<(), AllocError>
        ensures ok { OnOk result (AddsAll (λ k. bytes_within (option_copied start.entry)
            (option_copied end.entry) k ((keys_of self.now).values k)) pairs.old.items pairs.new.items) }
        ensures err { OnErr result (take (length pairs.old.items) pairs.new.items ≡ pairs.old.items) }
    {
        for (key, slot) in self.slots.range(bounds(self.alloc, start, end)) {
            if let Some(value) = slot.within(key.as_slice(), start, end) {
                pairs.push(self.copied_bytes(key.as_slice(), value)?)?;
            }
        }
        Ok(())
    }

    /// Copies of a key and of a value's bytes.
    fn copied_bytes(&self, key: &[u8], value: &[u8]) -> Result<(Bytes, Bytes), AllocError>
        ensures { IfOk result (λ pair. pair ≡ (key.now, value.now)) }
    {
        let key = Bytes::from_slice(self.alloc, key)?;
        let value = Bytes::from_slice(self.alloc, value)?;
        Ok((key, value))
    }

    /// Copies of a key and of a held value's bytes.
    fn copied(&self, key: &[u8], value: &HeldValue) -> Result<(Bytes, Bytes), AllocError>
        ensures { IfOk result (λ pair. pair ≡ (key.now, value.now.bytes)) }
    {
        let key = Bytes::from_slice(self.alloc, key)?;
        let value = Bytes::from_slice(self.alloc, value.bytes.as_slice())?;
        Ok((key, value))
    }

    /// The number of values in Rewrite, at most 2^64 - 1.
    pub fn rewritten_count(&self) -> u64
        ensures { CountsAll (λ k. asked_bytes None ((keys_of self.now).values k)) result }
    {
        let mut count: u64 = 0;
        for slot in self.slots.values() {
            if slot.asked(None).is_some() {
                count = count.saturating_add(1);
            }
        }
        count
    }

    /// Calls back with each key that isn't below the start and is below the end, if these are given, and with its
    /// value. Keys are visited in the order of their bytes, or backwards if `reverse`, up to the first call that
    /// returns false.
    pub fn scan<F: FnMut(&[u8], &[u8]) -> bool>(
        &self,
        start: Option<&[u8]>,
        end: Option<&[u8]>,
        reverse: bool,
        callback: F,
    )
        requires { F.IsAlwaysCallable callback }
        ensures { (es : List (List ℕ × List ℕ))
            × ListsAll (λ k. bytes_within (option_copied start.entry) (option_copied end.entry) k
            ((keys_of self.now).values k)) es
            × Visits (CalledAtTwo F.FnMut) callback (in_direction reverse es) }
    {
        if reverse {
            self.scan_down(start, end, callback);
        } else {
            self.scan_up(start, end, callback);
        }
    }

    /// Calls back in the order of the keys.
    fn scan_up<F: FnMut(&[u8], &[u8]) -> bool>(
        &self,
        start: Option<&[u8]>,
        end: Option<&[u8]>,
        mut callback: F,
    )
        requires { F.IsAlwaysCallable callback }
        ensures { (es : List (List ℕ × List ℕ))
            × ListsAll (λ k. bytes_within (option_copied start.entry) (option_copied end.entry) k
            ((keys_of self.now).values k)) es
            × Visits (CalledAtTwo F.FnMut) callback es }
    {
        for (key, slot) in self.slots.range(bounds(self.alloc, start, end)) {
            if let Some(value) = slot.within(key.as_slice(), start, end) {
                if !callback(key.as_slice(), value) {
                    return;
                }
            }
        }
    }

    /// Calls back backwards.
    fn scan_down<F: FnMut(&[u8], &[u8]) -> bool>(
        &self,
        start: Option<&[u8]>,
        end: Option<&[u8]>,
        mut callback: F,
    )
        requires { F.IsAlwaysCallable callback }
        ensures { (es : List (List ℕ × List ℕ))
            × ListsAll (λ k. bytes_within (option_copied start.entry) (option_copied end.entry) k
            ((keys_of self.now).values k)) es
            × Visits (CalledAtTwo F.FnMut) callback (reverse es) }
    {
        let mut entries = self.slots.range(bounds(self.alloc, start, end));
        while let Some((key, slot)) = entries.next_back() {
            if let Some(value) = slot.within(key.as_slice(), start, end) {
                if !callback(key.as_slice(), value) {
                    return;
                }
            }
        }
    }

    /// The keys that have tombstones.
    pub fn marked(&self) -> Result<Vec<Bytes>, AllocError>
        ensures { IfOk result (λ keys. ListsMarked (keys_of self.now).deleted keys.items) }
    {
        let mut keys = Vec::new(self.alloc);
        for (key, slot) in self.slots.iter() {
            if slot.deleted {
                keys.push(Bytes::from_slice(self.alloc, key.as_slice())?)?;
            }
        }
        Ok(keys)
    }
}

impl KeySlot {
    /// The value, if there is one in Append in a file up to the gate; without a gate, if there is one in Rewrite.
    fn asked(&self, gate: Option<FileSeq>) -> Option<&HeldValue>
        ensures { option_map (λ (h : HeldValue). h.bytes) (option_copied result)
            ≡ asked_bytes gate (shown_value self.now.held) }
    {
        let value = self.held.as_ref()?;
        let asked = match gate {
            Some(gate) => value.appended && value.file <= gate,
            None => !value.appended,
        };
        if asked { Some(value) } else { None }
    }

    /// The value's bytes, if there is one, and the key isn't below the start and is below the end, if these are given.
    fn within(&self, key: &[u8], start: Option<&[u8]>, end: Option<&[u8]>) -> Option<&[u8]>
        ensures { option_copied result
            ≡ bytes_within (option_copied start.entry) (option_copied end.entry) key.now
            (shown_value self.now.held) }
    {
        if start.is_some_and(|start| start.cmp(key).is_gt()) {
            return None;
        }
        if end.is_some_and(|end| key.cmp(end).is_ge()) {
            return None;
        }
        let value = self.held.as_ref()?;
        Some(value.bytes.as_slice())
    }
}
