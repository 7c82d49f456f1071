//! The records of the plain file: a group and its voter.
ghost use Rattle.std.specs.Prelude.{◌≡◌, ◌+◌, ◌^◌, ◌<◌, ◌++◌, length, IfOk, IfErr, OnOk};
ghost use Rattle.raft_voter_messages.specs.StoredForms.{number_text};
ghost use Rattle.raft_voter_plain.specs.declared.record.OpenFault.TheVariants.{Damaged};
ghost use Rattle.raft_voter_plain.specs.Damage.{LacksEntries, HasNoEntry, HasNoVoterRecord, TellsDamage};
ghost use Rattle.raft_voter_plain.specs.Records.{log_bytes, stored_at, voter_record};
ghost use Rattle.raft_voter_plain.specs.Beginnings.{StartsWith, BeginsWithEntries, BeginsWithEntry, BeginsWithNumber, BeginsWithRecord};

use raft_voter::{Entry, Items, Memory, StoredFault, Voter, read_entry, read_state};
use raft_voter_messages::{ENTRY_HEAD_BYTES, STATE_BYTES, append_entry, append_state};
use std::alloc::{AllocError, Global};
use thiserror::Error;

/// Why a file couldn't be opened.
#[derive(Clone, Copy, Debug, PartialEq, Eq, Error)]
pub enum OpenFault {
    /// The file's bytes aren't a sequence of records.
    #[error("damaged file")]
    Damaged,
    /// An allocation failed.
    #[error("out of memory")]
    Memory,
}

impl From<Memory> for OpenFault {
    ghost use Rattle.raft_voter_plain.specs.declared.record.OpenFault.TheVariants.{Memory as OutOfMemory};

    ghost from_gives = { λ _ fault. fault ≡ OutOfMemory };

    fn from(_refused: Memory) -> OpenFault {
        OpenFault::Memory
    }
}

impl From<AllocError> for OpenFault {
    ghost use Rattle.raft_voter_plain.specs.declared.record.OpenFault.TheVariants.{Memory as OutOfMemory};

    ghost from_gives = { λ _ fault. fault ≡ OutOfMemory };

    fn from(_refused: AllocError) -> OpenFault {
        OpenFault::Memory
    }
}

impl From<StoredFault> for OpenFault {
    ghost use Rattle.raft_voter_plain.specs.Damage.{open_fault};

    ghost from_gives = { λ given fault. fault ≡ open_fault given };

    fn from(fault: StoredFault) -> OpenFault {
        match fault {
            StoredFault::Memory => OpenFault::Memory,
            _ => OpenFault::Damaged,
        }
    }
}

/// Returns the record of a group's voter. Fails only with `Memory`.
#[tactic(auto, unfolding(crate::specs::Records::voter_record, crate::specs::Records::voter_bytes))]
pub fn voter_record(alloc: Global, group: u64, voter: &Voter) -> Result<Vec<u8>, Memory>
    ensures bytes { IfOk result (λ bytes. bytes.items ≡ voter_record (group, voter.now)) }
    ensures small { voter.now.base_index + length voter.now.log < 2 ^ 63 }
{
    let state = voter.state();
    let log = voter.log();
    let mut bytes = Vec::new(alloc);
    put_number(&mut bytes, group)?;
    append_state(&mut bytes, &state)?;
    put_number(&mut bytes, log.len() as u64)?;
    put_entries(&mut bytes, state.base_index + 1, log)?;
    Ok(bytes)
}

/// Appends the stored entries of a log; the first one has the index `first`.
fn put_entries(bytes: &mut Vec<u8>, first: u64, log: &[(u64, Items<u8>)]) -> Result<(), Memory>
    requires { first + length log.now < 2 ^ 64 }
    ensures { OnOk result (bytes.new.items ≡ bytes.old.items ++ log_bytes first log.now) }
{
    let mut index = first;
    for (term, own) in log {
        put_entry(bytes, index, *term, own.as_slice())?;
        index += 1;
    }
    Ok(())
}

/// Appends a stored entry.
#[tactic(auto, unfolding(crate::specs::Records::stored_entry))]
fn put_entry(bytes: &mut Vec<u8>, index: u64, term: u64, own: &[u8]) -> Result<(), Memory>
    ensures { OnOk result (bytes.new.items ≡ bytes.old.items ++ stored_at index (term, own.now)) }
{
    put_number(bytes, (own.len() + ENTRY_HEAD_BYTES) as u64)?;
    append_entry(bytes, index, term, own)
}

/// Appends a number of eight bytes, big-endian.
#[tactic(auto, unfolding(raft_voter_messages::specs::StoredForms::number_text))]
fn put_number(bytes: &mut Vec<u8>, number: u64) -> Result<(), Memory>
    ensures { OnOk result (bytes.new.items ≡ bytes.old.items ++ number_text number) }
{
    bytes.extend_from_slice(&number.to_be_bytes())?;
    Ok(())
}

/// Reads the record at the front of these bytes. Returns it and the bytes after it. Fails with `Damaged` only if the
/// bytes don't begin with a record.
pub fn read_voter_record(alloc: Global, bytes: &[u8]) -> Result<(u64, Voter, &[u8]), OpenFault>
    ensures ok { IfOk result (λ found. BeginsWithRecord bytes.now (found.0, found.1) found.2.now) }
    ensures err { IfErr result (TellsDamage (HasNoVoterRecord bytes.now)) }
{
    let (group, rest) = split_number(bytes)?;
    let (state, rest) = split(rest, STATE_BYTES)?;
    let state = read_state(state)?;
    let (count, rest) = split_number(rest)?;
    let (entries, rest) = read_entries(alloc, state.base_index, count, rest)?;
    let voter = Voter::restore(alloc, state, entries)?;
    Ok((group, voter, rest))
}

/// Reads this many stored entries, the first right above the base. Returns them and the bytes after them. Fails with
/// `Damaged` only if the bytes don't begin with such entries.
fn read_entries(
    alloc: Global,
    base: u64,
    count: u64,
    bytes: &[u8],
) -> Result<(Items<Entry>, &[u8]), OpenFault>
    requires { base < 2 ^ 63 }
    ensures ok { IfOk result (λ found. BeginsWithEntries bytes.now (base + 1) count found.0 found.1.now) }
    ensures err { IfErr result (TellsDamage (LacksEntries (base + 1) count bytes.now)) }
{
    let mut entries = Items::new(alloc);
    let mut left = bytes;
    for i in 0..count {
        let (entry, rest) = read_one(alloc, base + 1 + i, left)?;
        entries.push(entry)?;
        left = rest;
    }
    Ok((entries, left))
}

/// Reads the stored entry at this index. Returns it and the bytes after it. Fails with `Damaged` only if the bytes
/// don't begin with such an entry.
#[tactic(auto, unfolding(crate::specs::Records::stored_entry))]
fn read_one(alloc: Global, index: u64, bytes: &[u8]) -> Result<(Entry, &[u8]), OpenFault>
    ensures ok { IfOk result (λ found. BeginsWithEntry bytes.now index found.0 found.1.now) }
    ensures err { IfErr result (TellsDamage (HasNoEntry index bytes.now)) }
{
    let (size, rest) = split_number(bytes)?;
    let (stored, rest) = split(rest, size as usize)?;
    let entry = read_entry(alloc, stored, index)?;
    Ok((entry, rest))
}

/// Splits the number of eight bytes off the front. Returns it and the bytes after it.
fn split_number(bytes: &[u8]) -> Result<(u64, &[u8]), OpenFault>
    ensures ok { IfOk result (λ found. BeginsWithNumber bytes.now found.0 found.1.now) }
    ensures err { IfErr result (λ fault. (fault ≡ Damaged) × (length bytes.now < 8)) }
{
    if bytes.len() < 8 {
        return Err(OpenFault::Damaged);
    }
    let (front, rest) = bytes.split_at(8);
    let number = u64::from_be_bytes([
        front[0], front[1], front[2], front[3], front[4], front[5], front[6], front[7],
    ]);
    Ok((number, rest))
}

/// Splits this many bytes off the front. Returns them and the bytes after them.
fn split(bytes: &[u8], count: usize) -> Result<(&[u8], &[u8]), OpenFault>
    ensures ok { IfOk result (λ found. StartsWith bytes.now count found.0.now found.1.now) }
    ensures err { IfErr result (λ fault. (fault ≡ Damaged) × (length bytes.now < count)) }
{
    if bytes.len() < count {
        return Err(OpenFault::Damaged);
    }
    Ok(bytes.split_at(count))
}
