//! The keys of a group, in their order, and room for keys to come.
ghost use Rattle.std.specs.Prelude.{◌≡◌, ◌↔◌, Some, None, true, false, is_some, option_copied, option_map, IsTrue, OnOk, OnErr};
ghost use Rattle.raft_log_memtable_index.specs.Keys.{
  cleared_keys,
  emptied,
  joined_keys,
  keys_of,
  no_keys,
  rewritten_held,
  settled_keys,
  shown_value,
  unmarked_keys,
  value_of,
  with_mark,
  with_rewritten,
  with_room,
  with_slot,
  with_value,
  HasKeyRoomFor,
};
ghost use Rattle.raft_log_memtable_index.specs.LeastFiles.{file_of_value, least_value, lesser, IsLeastValue};

mod bounds;
mod reads;

use raft_log_record_base::FileSeq;
use raft_log_record_items::Bytes;
use std::alloc::{AllocError, Global};
use std::collections::BTreeMap;
use std::marker::Model;

/// The value of a key, and where it is stored.
#[derive(Debug, Drop)]
pub struct HeldValue {
    /// The value.
    pub bytes: Bytes,
    /// Whether the value is in Append; if not, it is in Rewrite.
    pub appended: bool,
    /// The file of that queue that has it.
    pub file: FileSeq,
}

/// The state of a key. A slot without a value and without a tombstone is room for what is to come.
#[derive(Debug, Drop)]
pub struct KeySlot {
    /// The value, if the key has one.
    held: Option<HeldValue>,
    /// Whether the key was deleted since tombstones were last written to Rewrite.
    deleted: bool,
}

impl KeySlot {
    /// Sets the key's value, or removes it.
    fn hold(&mut self, held: Option<HeldValue>)
        ensures { self.new ≡ record self.old { held = held } }
    {
        self.held = held;
    }

    /// The file of the value, if there is one in this queue: Append if `appended`, else Rewrite.
    fn file(&self, appended: bool) -> Option<FileSeq>
        ensures { result ≡ file_of_value appended self.now.held }
    {
        let held = self.held.as_ref()?;
        let there = if appended {
            held.appended
        } else {
            !held.appended
        };
        if there { Some(held.file) } else { None }
    }

    /// Notes that the value, if there is one, is in this file of Rewrite.
    fn rewrite(&mut self, file: FileSeq)
        ensures { self.new ≡ record self.old { held = option_map (rewritten_held file) self.old.held } }
    {
        if let Some(held) = &mut self.held {
            held.appended = false;
            held.file = file;
        }
    }

    /// Removes the key's tombstone.
    fn unmark(&mut self)
        ensures { self.new ≡ record self.old { deleted = false } }
    {
        self.deleted = false;
    }

    /// Removes the key's tombstone. Returns whether it has a value.
    fn settle(&mut self) -> bool
        ensures slot { self.new ≡ record self.old { deleted = false } }
        ensures value { result ≡ is_some self.old.held }
    {
        self.deleted = false;
        self.held.is_some()
    }

    /// Removes the key's value. Returns whether it has a tombstone.
    fn clear(&mut self) -> bool
        ensures slot { self.new ≡ record self.old { held = None } }
        ensures mark { result ≡ self.old.deleted }
    {
        self.held = None;
        self.deleted
    }

    /// Removes the key's value, and adds a tombstone.
    fn delete(&mut self)
        ensures { self.new ≡ record { held = None; deleted = true } }
    {
        self.held = None;
        self.deleted = true;
    }
}

/// The keys of a group. Contracts see it as the list of keys and slots, in the order of the keys, and say how `keys_of`
/// it changes.
#[derive(Drop)]
pub struct KeyMap {
    alloc: Global,
    slots: BTreeMap<Vec<u8>, KeySlot>,
    /// Whether a key may have a value.
    valued: bool,
    /// Whether a key may have room without a tombstone.
    spare: bool,
}

impl Model for KeyMap {
    ghost use Rattle.std.specs.Prelude.{List, ℕ, map};
    ghost use Rattle.raft_log_memtable_index.specs.declared.key_map.KeySlot.{KeySlot};
    ghost use Rattle.raft_log_memtable_index.specs.Keys.{keys_of, MaySkip};

    ghost Value = { List (List ℕ × KeySlot) };

    ghost view = { λ m. map (λ e. (e.0.items, e.1)) m.slots.entries };

    ghost invariant = { λ m. MaySkip m.valued m.spare (keys_of (map (λ e. (e.0.items, e.1)) m.slots.entries)) };
}

impl KeyMap {
    /// No keys.
    pub fn new(alloc: Global) -> KeyMap
        ensures { keys_of result ≡ no_keys }
    {
        KeyMap {
            alloc,
            slots: BTreeMap::new(alloc),
            valued: false,
            spare: false,
        }
    }

    /// Whether no key has a value, a tombstone or room.
    pub fn is_empty(&self) -> bool
        ensures { IsTrue result ↔ (keys_of self.now ≡ no_keys) }
    {
        self.slots.is_empty()
    }

    /// The value of a key, if it has one.
    pub fn get(&self, key: &[u8]) -> Option<&HeldValue>
        ensures { shown_value (option_copied result) ≡ (keys_of self.now).values key.now }
    {
        match self.slots.get(key) {
            Some(slot) => slot.held.as_ref(),
            None => None,
        }
    }

    /// Makes room for a key. If memory runs out, nothing changes.
    pub fn make_room(&mut self, key: &[u8]) -> Result<(), AllocError>
        ensures ok { OnOk result (keys_of self.new ≡ with_room (keys_of self.old) key.now) }
        ensures err { OnErr result (keys_of self.new ≡ keys_of self.old) }
    {
        if self.slots.contains_key(key) {
            return Ok(());
        }
        let vacant = KeySlot {
            held: None,
            deleted: false,
        };
        self.slots.insert(key.to_vec(self.alloc)?, vacant)?;
        self.spare = true;
        Ok(())
    }

    /// Sets the value of a key that has room.
    pub fn put(&mut self, key: &[u8], value: HeldValue)
        requires { IsTrue ((keys_of self.old).has key.now) }
        ensures { keys_of self.new ≡ with_value (keys_of self.old) key.now (Some (value_of value)) }
    {
        self.valued = true;
        if let Some(slot) = self.slots.get_mut(key) {
            slot.hold(Some(value));
        }
    }

    /// Deletes a key that has room: removes its value, if it has one, and adds a tombstone.
    pub fn delete(&mut self, key: &[u8])
        requires { IsTrue ((keys_of self.old).has key.now) }
        ensures { keys_of self.new ≡ with_mark (keys_of self.old) key.now }
    {
        if let Some(slot) = self.slots.get_mut(key) {
            slot.delete();
        }
    }

    /// Makes room for all keys of a later map. Whether it succeeds or fails, no value and no tombstone changes. If it
    /// fails, some keys may have got room.
    pub fn make_room_for(&mut self, later: &KeyMap) -> Result<(), AllocError>
        ensures values { (keys_of self.new).values ≡ (keys_of self.old).values }
        ensures deleted { (keys_of self.new).deleted ≡ (keys_of self.old).deleted }
        ensures room { OnOk result (HasKeyRoomFor (keys_of self.new) (keys_of later.now)) }
    {
        for key in later.slots.keys() {
            self.make_room(key)?;
        }
        Ok(())
    }

    /// Puts the values and tombstones of a later map over those of this one, which has room for its keys. If the later
    /// map has a value or a tombstone for a key, it replaces the value here.
    pub fn join(&mut self, later: KeyMap)
        requires { HasKeyRoomFor (keys_of self.old) (keys_of later) }
        ensures { keys_of self.new ≡ joined_keys (keys_of self.old) (keys_of later) }
    {
        for (key, slot) in later.slots {
            self.join_slot(&key, slot);
        }
    }

    /// Puts a later slot over that of a key that has room: its tombstone, and its value if it has one.
    fn join_slot(&mut self, key: &[u8], slot: KeySlot)
        requires { (keys_of self.old).has key.now ≡ true }
        ensures { keys_of self.new ≡ with_slot (keys_of self.old) key.now slot }
    {
        if slot.deleted {
            self.delete(key);
        }
        if let Some(value) = slot.held {
            self.put(key, value);
        }
    }

    /// Removes all values. Tombstones and room stay. If no key can have a value, it walks no key.
    pub fn empty(&mut self)
        ensures { keys_of self.new ≡ emptied (keys_of self.old) }
    {
        if !self.valued {
            return;
        }
        self.slots.retain(|_, slot| {
            slot.hold(None);
            true
        });
        self.valued = false;
    }

    /// Removes all values. Tombstones stay; a key without one loses its slot, so its room too. If only tombstones can
    /// be there, it walks no key.
    pub fn clear(&mut self)
        ensures { keys_of self.new ≡ cleared_keys (keys_of self.old) }
    {
        if !self.valued && !self.spare {
            return;
        }
        self.slots.retain(|_, slot| slot.clear());
        self.valued = false;
        self.spare = false;
    }

    /// Removes all tombstones. A key without a value loses its slot, so its room too.
    pub fn clear_marks(&mut self)
        ensures { keys_of self.new ≡ settled_keys (keys_of self.old) }
    {
        self.slots.retain(|_, slot| slot.settle());
        self.spare = true;
    }

    /// Removes all tombstones. The room stays.
    pub fn unmark(&mut self)
        ensures { keys_of self.new ≡ unmarked_keys (keys_of self.old) }
    {
        self.slots.retain(|_, slot| {
            slot.unmark();
            true
        });
        self.spare = true;
    }

    /// The least file of the values in Append if `appended`, else of those in Rewrite; none if there is no such value.
    pub fn least_file(&self, appended: bool) -> Option<FileSeq>
        ensures exact { IsLeastValue appended (keys_of self.now).values result }
        ensures slots { result ≡ least_value appended self.now }
    {
        let mut least = None;
        for slot in self.slots.values() {
            least = lesser(least, slot.file(appended));
        }
        least
    }

    /// Notes that the key's value, if it has one, is now in this file of Rewrite.
    pub fn rewrite(&mut self, key: &[u8], file: FileSeq)
        ensures { keys_of self.new ≡ with_rewritten (keys_of self.old) key.now file }
    {
        if let Some(slot) = self.slots.get_mut(key) {
            slot.rewrite(file);
        }
    }
}

/// The lesser of two files, if there are any.
pub fn lesser(a: Option<FileSeq>, b: Option<FileSeq>) -> Option<FileSeq>
    ensures { result ≡ lesser a b }
{
    match (a, b) {
        (Some(a), Some(b)) => Some(a.min(b)),
        (None, b) => b,
        (a, None) => a,
    }
}
