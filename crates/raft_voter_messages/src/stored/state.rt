//! The bytes of a voter's state: the form, the term, the vote byte, the candidate, the base's index and term, and in
//! form 2 the commit. The index and term of the last entry aren't written.
ghost use Rattle.std.specs.Prelude.{◌≡◌, ◌+◌, ◌<◌, ◌++◌, vec_capacity, vec_len, IfOk, IfErr, OnOk, OnErr};
ghost use Rattle.raft_voter_messages.specs.StoredForms.{IsBareState, IsState, IsStateForm1, state_fits, state_form_2, state_text, StateFault, StateForm1Fault, StateForm2Fault};

use super::head::StateHead;
use super::{NUMBER_BYTES, StoredFault, push_number, split_number};
use crate::request::fits;
use crate::{Items, Memory, VoterState};
use std::alloc::Global;

/// The form byte of state form 1, which has no commit.
const FORM_1: u8 = 1;

/// The form byte of state form 2.
const FORM_2: u8 = 2;

/// How many bytes follow the form byte in form 1: four numbers and the byte of the vote.
const FORM_1_BYTES: usize = 4 * NUMBER_BYTES + 1;

/// How many bytes follow the form byte in form 2.
const FORM_2_BYTES: usize = FORM_1_BYTES + NUMBER_BYTES;

/// How many bytes are written for a state.
pub const STATE_BYTES: usize = 1 + FORM_2_BYTES;

/// Encodes a state in form 2, also one out of range, which `read_state` doesn't read. Fails only for lack of memory.
pub fn state_bytes(alloc: Global, state: &VoterState) -> Result<Items<u8>, Memory>
    ensures { IfOk result (λ bytes. bytes ≡ state_text state.now) }
{
    let mut bytes = Vec::new(alloc);
    append_state(&mut bytes, state)?;
    Ok(Items::from_vec(bytes))
}

/// Appends the bytes of a state, in form 2. Fails only if the capacity is too small and memory runs out. If it fails,
/// the bytes are unchanged.
pub fn append_state(bytes: &mut Vec<u8>, state: &VoterState) -> Result<(), Memory>
    ensures ok { OnOk result (bytes.new.items ≡ bytes.old.items ++ state_text state.now) }
    ensures err { OnErr result (bytes.new.items ≡ bytes.old.items) }
    ensures errors { OnErr result (vec_capacity bytes.old < vec_len bytes.old + 42) }
{
    bytes.reserve(STATE_BYTES)?;
    bytes.push_reserved(FORM_2);
    push_number(bytes, state.term);
    bytes.push_reserved(state.vote.is_some() as u8);
    push_number(bytes, state.vote.unwrap_or(0));
    push_number(bytes, state.base_index);
    push_number(bytes, state.base_term);
    push_number(bytes, state.commit);
    Ok(())
}

/// Decodes a state, with the base in place of the last entry. In form 1 the commit is the base's index. Fails with the
/// first fault: no bytes, another form, another length, a value out of range.
pub fn read_state(bytes: &[u8]) -> Result<VoterState, StoredFault>
    ensures ok { IfOk result (λ state. IsState bytes.now state) }
    ensures err { IfErr result (λ fault. StateFault fault bytes.now) }
{
    let Some((form, body)) = bytes.split_first() else {
        return Err(StoredFault::Length);
    };
    match *form {
        FORM_1 => read_form_1(body),
        FORM_2 => read_form_2(body),
        _ => Err(StoredFault::Form),
    }
}

/// Whether a state's term, vote, base and commit are in range, and its base is at most its commit. Its last entry isn't
/// looked at.
pub fn state_fits(state: &VoterState) -> bool
    ensures { result ≡ state_fits state.now }
{
    fits(state.term)
        && state.vote.is_none_or(|candidate| fits(candidate))
        && fits(state.base_index)
        && fits(state.base_term)
        && fits(state.commit)
        && state.base_index <= state.commit
}

/// Decodes the state from the bytes after form byte 1. Fails with their first fault.
fn read_form_1(body: &[u8]) -> Result<VoterState, StoredFault>
    ensures ok { IfOk result (λ state. IsStateForm1 body.now state × IsBareState state) }
    ensures err { IfErr result (λ fault. StateForm1Fault fault body.now) }
{
    if body.len() != FORM_1_BYTES {
        return Err(StoredFault::Length);
    }
    let (head, _end) = StateHead::split(body);
    let commit = head.base_index();
    let Some(state) = head.state(commit) else {
        return Err(StoredFault::Range);
    };
    Ok(state)
}

/// Decodes the state from the bytes after form byte 2. Fails with their first fault.
fn read_form_2(body: &[u8]) -> Result<VoterState, StoredFault>
    ensures ok { IfOk result (λ state. (body.now ≡ state_form_2 state) × IsBareState state) }
    ensures err { IfErr result (λ fault. StateForm2Fault fault body.now) }
{
    if body.len() != FORM_2_BYTES {
        return Err(StoredFault::Length);
    }
    let (head, rest) = StateHead::split(body);
    let (commit, _end) = split_number(rest);
    let Some(state) = head.state(commit) else {
        return Err(StoredFault::Range);
    };
    Ok(state)
}
