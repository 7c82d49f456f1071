//! The atomic groups that have begun and not ended.
ghost use Rattle.std.specs.Prelude.{◌≡◌, ◌<◌, ◌++◌, ◌∷◌, [], ℕ, get_or, length, map, option_map, set, take, None, Some, IfOk, OnOk};
ghost use Rattle.raft_log_replay_context.specs.OpenGroups.{
  begun_at,
  begun_of,
  number_at,
  without_begun,
  GoesOnAmong,
  HasMoreAt,
  IsSameInSlots,
};

use crate::part::GroupPart;
use std::alloc::{AllocError, Global};
use std::collections::BTreeMap;
use std::marker::Model;
use std::mem;

/// An atomic group that has begun and not ended.
#[derive(Drop)]
pub(crate) struct OpenGroup {
    /// The group's number.
    pub(crate) number: u64,
    /// The group's records so far.
    pub(crate) parts: Vec<GroupPart>,
}

/// The atomic groups that have begun and not ended, in the order of their begins. Each is found by its number, without
/// a walk over the others: a group has a slot, which is vacant once the group is removed.
#[derive(Drop)]
pub(crate) struct OpenGroups {
    alloc: Global,
    slots: Vec<Option<OpenGroup>>,
    places: BTreeMap<u64, usize>,
}

impl Model for OpenGroups {
    ghost use Rattle.std.specs.Prelude.{List, ℕ};
    ghost use Rattle.raft_log_replay_context.specs.declared.part.GroupPart.{GroupPart};
    ghost use Rattle.raft_log_replay_context.specs.OpenGroups.{begun_in, ArePlaced};

    ghost Value = { List (ℕ × List GroupPart) };

    ghost view = { λ g. begun_in g.slots.items };

    ghost invariant = { λ g. ArePlaced g.slots.items g.places };
}

impl OpenGroups {
    /// No groups.
    pub(crate) fn new(alloc: Global) -> OpenGroups
        ensures { result ≡ [] }
    {
        OpenGroups {
            alloc,
            slots: Vec::new(alloc),
            places: BTreeMap::new(alloc),
        }
    }

    /// Appends a group. An open one of its number is removed.
    pub(crate) fn push(&mut self, group: OpenGroup) -> Result<(), AllocError>
        ensures { OnOk result (self.new ≡ without_begun group.number self.old ++ begun_of group ∷ []) }
    {
        self.take(group.number);
        let place = self.slots.len();
        self.slots.reserve(1)?;
        self.places.insert(group.number, place)?;
        self.slots.push_reserved(Some(group));
        Ok(())
    }

    /// Removes the group of a number, if it is open, and returns it.
    pub(crate) fn take(&mut self, number: u64) -> Option<OpenGroup>
        ensures rest { self.new ≡ without_begun number self.old }
        ensures group { option_map begun_of result ≡ begun_at number self.old }
    {
        let Some(place) = self.places.remove(&number) else {
            return None;
        };
        let group = take_from(&mut self.slots, place);
        drop_vacant_end(&mut self.slots);
        group
    }

    /// Appends a record to the group of a number. Returns the record if the group isn't open.
    pub(crate) fn go_on(
        &mut self,
        number: u64,
        part: GroupPart,
    ) -> Result<Option<GroupPart>, AllocError>
        ensures { IfOk result (λ back. GoesOnAmong number part self.old self.new back) }
    {
        let Some(place) = self.places.get(&number) else {
            return Ok(Some(part));
        };
        add_part(&mut self.slots, *place, part)?;
        Ok(None)
    }

    /// The groups, in the order of their begins.
    pub(crate) fn into_groups(self) -> Result<Vec<OpenGroup>, AllocError>
        ensures { IfOk result (λ groups. map begun_of groups.items ≡ self) }
    {
        let mut groups = Vec::new(self.alloc);
        for slot in self.slots {
            if let Some(group) = slot {
                groups.push(group)?;
            }
        }
        Ok(groups)
    }
}

/// Takes the group out of a slot.
fn take_from(slots: &mut Vec<Option<OpenGroup>>, place: usize) -> Option<OpenGroup>
    requires { place < length slots.old.items }
    ensures items { slots.new.items ≡ set slots.old.items place None }
    ensures group { result ≡ get_or slots.old.items place None }
{
    mem::replace(&mut slots[place], None)
}

/// Appends a record to the group in a slot.
fn add_part(
    slots: &mut Vec<Option<OpenGroup>>,
    place: usize,
    part: GroupPart,
) -> Result<(), AllocError>
    requires { (n : ℕ) × (number_at slots.old.items place ≡ Some n) }
    ensures ok { OnOk result (HasMoreAt place part slots.old.items slots.new.items) }
    ensures numbers { (i : ℕ) → number_at slots.new.items i ≡ number_at slots.old.items i }
{
    if let Some(group) = &mut slots[place] {
        group.parts.push(part)?;
    }
    Ok(())
}

/// Drops the vacant slots after the last group.
fn drop_vacant_end(slots: &mut Vec<Option<OpenGroup>>)
    ensures { IsSameInSlots slots.old.items slots.new.items }
{
    let len = len_to_last(slots);
    slots.truncate(len);
}

/// The number of slots up to the last group.
fn len_to_last(slots: &Vec<Option<OpenGroup>>) -> usize
    ensures { IsSameInSlots slots.now.items (take result slots.now.items) }
{
    let mut len = slots.len();
    while len > 0 {
        if slots[len - 1].is_some() {
            return len;
        }
        len -= 1;
    }
    len
}
