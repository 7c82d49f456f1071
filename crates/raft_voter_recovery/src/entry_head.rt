//! Reads the index and term of an entry from stored bytes, without its own bytes.
ghost use Rattle.std.specs.Prelude.{◌≡◌, ◌+◌, ◌^◌, ◌<◌, ◌≤◌, ◌++◌, length, OnErr, OnOk, Some};
ghost use Rattle.raft_log_record_items.specs.Writing.{KeepsFront};
ghost use Rattle.raft_voter_messages.specs.StoredForms.{number_text};
ghost use Rattle.raft_voter_recovery.specs.Numbers.{numbers_in, numbers_text, term_told};

use raft_log_record_base::Result;
use raft_log_record_items::{Message, MessageExt};
use raft_voter_messages::{MAX_ENTRY_BYTES, MAX_NUMBER, append_entry};
use std::alloc::{AllocError, Global};

/// The form byte of an entry.
const ENTRY_FORM: u8 = 1;

/// The number of bytes of a number.
const NUMBER_BYTES: usize = 8;

/// The index and the term in stored bytes, if these have the form and the length of an entry. The entry's own bytes
/// aren't kept, so reading one allocates nothing.
#[derive(Clone, Copy)]
pub struct EntryHead {
    numbers: Option<(u64, u64)>,
}

impl EntryHead {
    /// The term of the entry at this index, if the bytes are that entry's.
    pub fn term_at(&self, index: u64) -> Option<u64>
        ensures { result ≡ term_told index self.now.numbers }
    {
        let (own_index, term) = self.numbers?;
        if own_index != index || own_index > MAX_NUMBER || term > MAX_NUMBER {
            return None;
        }
        Some(term)
    }
}

impl Message for EntryHead {
    ghost use Rattle.std.specs.Prelude.{Some};
    ghost use Rattle.raft_voter_recovery.specs.Numbers.{numbers_in, numbers_text};

    ghost spelling = { λ head. numbers_text head.numbers };

    ghost reading = { λ source. Some (record { numbers = numbers_in source }) };

    fn write(&self, out: &mut Vec<u8>) -> std::result::Result<(), AllocError> {
        let Some((index, term)) = self.numbers else {
            return Ok(());
        };
        append_numbers(out, index, term)
    }

    fn parse(_alloc: Global, bytes: &[u8]) -> Result<EntryHead> {
        let numbers = numbers_in(bytes);
        Ok(EntryHead { numbers })
    }
}

/// The message type of a log whose entries are read without their own bytes.
pub struct EntryHeads {}

impl MessageExt for EntryHeads {
    type Entry = EntryHead;

    ghost index = { λ head. 0 };

    fn index(_head: &EntryHead) -> u64 {
        0
    }
}

/// Appends the bytes of an entry with this index and term, and no bytes of its own.
fn append_numbers(out: &mut Vec<u8>, index: u64, term: u64) -> std::result::Result<(), AllocError>
    ensures ok { OnOk result (out.new.items ≡ out.old.items ++ numbers_text (Some (index, term))) }
    ensures err { OnErr result (KeepsFront out.old.items out.new.items) }
    ensures small { term < 2 ^ 64 }
{
    match append_entry(out, index, term, &[]) {
        Ok(()) => Ok(()),
        Err(_) => Err(AllocError),
    }
}

/// The index and the term in bytes with the form and the length of an entry; none in other bytes.
fn numbers_in(bytes: &[u8]) -> Option<(u64, u64)>
    ensures { result ≡ numbers_in bytes.now }
{
    let Some((form, body)) = bytes.split_first() else {
        return None;
    };
    if *form != ENTRY_FORM
        || body.len() < 2 * NUMBER_BYTES
        || body.len() > 2 * NUMBER_BYTES + MAX_ENTRY_BYTES
    {
        return None;
    }
    let (index, rest) = split_number(body);
    let (term, _own) = split_number(rest);
    Some((index, term))
}

/// The number at the start of these bytes, and the bytes after it.
fn split_number(bytes: &[u8]) -> (u64, &[u8])
    requires { 8 ≤ length bytes.now }
    ensures text { bytes.now ≡ number_text result.0 ++ result.1.now }
    ensures rest { length result.1.now + 8 ≡ length bytes.now }
    ensures small { result.0 < 2 ^ 64 }
{
    let (front, rest) = bytes.split_at(NUMBER_BYTES);
    let number = u64::from_be_bytes([
        front[0], front[1], front[2], front[3], front[4], front[5], front[6], front[7],
    ]);
    (number, rest)
}
