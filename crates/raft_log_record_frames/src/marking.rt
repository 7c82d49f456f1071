//! Reads and writes the marks of atomic groups.
ghost use Rattle.std.specs.Prelude.{◌≡◌, IfOk, OnOk};
ghost use Rattle.raft_log_record_base.specs.Number.{IsU64, u64_bytes};
ghost use Rattle.raft_log_record_frames.specs.Marking.{mark_value, mark_in, mark_of_value, mark_of, has_mark_key};

use crate::status::{AtomicGroupStatus, status_of};
use raft_log_record_base::codec;
use raft_log_record_items::{KeyValue, LogItem, LogItemContent, OpType};
use std::alloc::{AllocError, Global};

/// The group of all marks.
pub const MARK_GROUP: u64 = 0;

/// The key of all marks, which no user's item may have.
pub const MARK_KEY: [u8; 3] = [b'_', b'_', 1];

/// What an item, or all items of a batch, say as a mark.
#[derive(Clone, Copy, Debug, PartialEq, Eq)]
pub enum Marking {
    /// There is no mark.
    Unmarked,
    /// The batch is this part of the atomic group with this number.
    Part(u64, AtomicGroupStatus),
    /// There are several marks, or one whose value is invalid: the record is broken.
    Broken,
}

impl Marking {
    ghost use Rattle.std.specs.Prelude.{◌≡◌};
    ghost use Rattle.raft_log_record_frames.specs.Marking.{marking_of, marking_of_items, joined_marking};

    /// What an item says as a mark.
    #[tactic(auto, unfolding(crate::specs::Marking::marking_of))]
    pub fn parse(item: &LogItem) -> Marking
        ensures { result ≡ marking_of item.now }
    {
        if !has_mark_key(item) {
            return Marking::Unmarked;
        }
        match parse_item(item) {
            Some((id, status)) => Marking::Part(id, status),
            None => Marking::Broken,
        }
    }

    /// What two parts of a batch say together: broken, if both have a mark.
    fn join(self, other: Marking) -> Marking
        ensures { result ≡ joined_marking self other }
    {
        match (self, other) {
            (Marking::Unmarked, marking) => marking,
            (Marking::Part(id, status), Marking::Unmarked) => Marking::Part(id, status),
            _ => Marking::Broken,
        }
    }

    /// The marking of a batch with these items: what its mark says, `Unmarked` without one, `Broken` with several.
    pub fn parse_all(items: &[LogItem]) -> Marking
        ensures { result ≡ marking_of_items items.now }
    {
        let mut marking = Marking::Unmarked;
        for item in items {
            marking = marking.join(Marking::parse(item));
        }
        marking
    }
}

/// The value of a mark for this part of the atomic group with this number.
#[tactic(auto, unfolding(crate::specs::Marking::mark_value))]
pub fn mark_value(alloc: Global, id: u64, status: AtomicGroupStatus) -> Result<Vec<u8>, AllocError>
    ensures value { IfOk result (λ bytes. bytes.items ≡ mark_value id status) }
    ensures spelled { OnOk result (IsU64 (u64_bytes id) id) }
{
    let mut value = Vec::with_capacity(alloc, 9)?;
    codec::append_u64(&mut value, id)?;
    value.push(status as u8)?;
    Ok(value)
}

/// What the value of a mark says.
#[tactic(auto, unfolding(crate::specs::Marking::mark_in))]
fn parse_value(value: &[u8]) -> Option<(u64, AtomicGroupStatus)>
    ensures { result ≡ mark_in value.now }
{
    let mut rest: &[u8] = value;
    let id = codec::decode_u64(&mut rest).ok()?;
    match rest {
        [byte] => Some((id, status_of(*byte)?)),
        _ => None,
    }
}

/// What a key says as a mark.
fn parse_key_value(key_value: &KeyValue) -> Option<(u64, AtomicGroupStatus)>
    ensures { result ≡ mark_of_value key_value.now.op_type key_value.now.key key_value.now.value }
{
    match key_value.op_type {
        OpType::Put => {
            if key_value.key.as_slice() != MARK_KEY.as_slice() {
                return None;
            }
            parse_value(key_value.value.as_ref()?.as_slice())
        }
        OpType::Del => None,
    }
}

/// What an item says as a mark.
#[tactic(auto, unfolding(crate::specs::Marking::mark_of))]
fn parse_item(item: &LogItem) -> Option<(u64, AtomicGroupStatus)>
    ensures { result ≡ mark_of item.now }
{
    match &item.content {
        LogItemContent::Kv(key_value) if item.raft_group_id == MARK_GROUP => {
            parse_key_value(key_value)
        }
        _ => None,
    }
}

/// Whether an item puts the key of marks.
#[tactic(auto, unfolding(crate::specs::Marking::has_mark_key))]
fn has_mark_key(item: &LogItem) -> bool
    ensures { result ≡ has_mark_key item.now }
{
    match &item.content {
        LogItemContent::Kv(key_value) => match key_value.op_type {
            OpType::Put => {
                item.raft_group_id == MARK_GROUP && key_value.key.as_slice() == MARK_KEY.as_slice()
            }
            OpType::Del => false,
        },
        _ => false,
    }
}
