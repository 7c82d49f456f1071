//! The bytes of an entry: the form, its index, its term, and its own bytes.
ghost use Rattle.std.specs.Prelude.{◌≡◌, ◌+◌, ◌<◌, ◌++◌, length, vec_capacity, vec_len, IfOk, IfErr, OnOk, OnErr};
ghost use Rattle.raft_voter_messages.specs.StoredForms.{entry_text, EntryFault, EntryForm1Fault, IsEntry, IsEntryForm1, stored_entry_fits};

use super::{NUMBER_BYTES, StoredFault, push_number, split_number};
use crate::request::{MAX_ENTRY_BYTES, all_fit, fits};
use crate::{Entry, Items, Memory};
use std::alloc::Global;

/// The form byte of entry form 1.
const FORM_1: u8 = 1;

/// How many bytes are between the form byte and the entry's own bytes.
const FORM_1_NUMBERS: usize = 2 * NUMBER_BYTES;

/// How many bytes are written before an entry's own bytes.
pub const ENTRY_HEAD_BYTES: usize = 1 + FORM_1_NUMBERS;

/// Encodes an entry in form 1, also one out of range, which `read_entry` doesn't read. Fails only for lack of memory.
pub fn entry_bytes(alloc: Global, entry: &Entry) -> Result<Items<u8>, Memory>
    ensures { IfOk result (λ bytes. bytes ≡ entry_text entry.now) }
{
    let mut bytes = Vec::new(alloc);
    append_entry(&mut bytes, entry.index, entry.term, entry.bytes.as_slice())?;
    Ok(Items::from_vec(bytes))
}

/// Appends an entry with this index, this term and these bytes, in form 1. Fails only if the capacity is too small and
/// memory runs out. If it fails, the bytes are unchanged.
pub fn append_entry(bytes: &mut Vec<u8>, index: u64, term: u64, own: &[u8]) -> Result<(), Memory>
    ensures ok { OnOk result (bytes.new.items
        ≡ bytes.old.items ++ entry_text (record { index = index; term = term; bytes = own.now })) }
    ensures err { OnErr result (bytes.new.items ≡ bytes.old.items) }
    ensures errors { OnErr result (vec_capacity bytes.old < vec_len bytes.old + (length own.now + 17)) }
{
    bytes.reserve(own.len().saturating_add(ENTRY_HEAD_BYTES))?;
    bytes.push_reserved(FORM_1);
    push_number(bytes, index);
    push_number(bytes, term);
    let Ok(()) = bytes.extend_from_slice(own) else {
        unreachable!();
    };
    Ok(())
}

/// Decodes the entry at this index. Fails with the first fault: no bytes, another form, another length, a number out of
/// range, another index. Memory may run out too.
pub fn read_entry(alloc: Global, bytes: &[u8], index: u64) -> Result<Entry, StoredFault>
    ensures ok { IfOk result (λ entry. IsEntry bytes.now index entry) }
    ensures err { IfErr result (λ fault. EntryFault fault bytes.now index) }
{
    let Some((form, body)) = bytes.split_first() else {
        return Err(StoredFault::Length);
    };
    match *form {
        FORM_1 => read_form_1(alloc, body, index),
        _ => Err(StoredFault::Form),
    }
}

/// Whether an entry's numbers are in range, and it isn't too long.
pub fn stored_entry_fits(entry: &Entry) -> bool
    ensures { result ≡ stored_entry_fits entry.now }
{
    fits(entry.index) && fits(entry.term) && entry.bytes.len() <= MAX_ENTRY_BYTES
}

/// Decodes the entry at this index from the bytes after form byte 1. Fails with their first fault.
fn read_form_1(alloc: Global, body: &[u8], index: u64) -> Result<Entry, StoredFault>
    ensures ok { IfOk result (λ entry. IsEntryForm1 body.now entry × (entry.index ≡ index)) }
    ensures err { IfErr result (λ fault. EntryForm1Fault fault body.now index) }
{
    if body.len() < FORM_1_NUMBERS || body.len() > FORM_1_NUMBERS + MAX_ENTRY_BYTES {
        return Err(StoredFault::Length);
    }
    let (own_index, rest) = split_number(body);
    let (term, own) = split_number(rest);
    if !all_fit(&[own_index, term]) {
        return Err(StoredFault::Range);
    }
    if own_index != index {
        return Err(StoredFault::Index);
    }
    let bytes = Items::from_slice(alloc, own)?;
    Ok(Entry { index, term, bytes })
}
