//! The numbers that begin every form of a stored state.
ghost use Rattle.std.specs.Prelude.{◌≡◌, ◌+◌, ◌^◌, ◌<◌, ◌≤◌, ◌++◌, length, IfSome, IfNone};
ghost use Rattle.raft_voter_messages.specs.StoredForms.{IsBareState, vote_text};

use super::split_number;
use super::state::state_fits;
use crate::VoterState;

/// The numbers that begin every form of a state, unchecked.
#[derive(Drop)]
pub struct StateHead {
    term: u64,
    vote_byte: u8,
    candidate: u64,
    base_index: u64,
    base_term: u64,
    ghost small: { (term < 2 ^ 64) × (candidate < 2 ^ 64) × (base_index < 2 ^ 64) × (base_term < 2 ^ 64) },
}

impl StateHead {
    ghost use Rattle.raft_voter_messages.specs.StateHeads.{HasHead, head_bytes, IsNoState, IsNoVote, vote_bytes};

    /// Splits the numbers off the front of these bytes. Returns them and the remaining bytes.
    pub fn split(bytes: &[u8]) -> (StateHead, &[u8])
        requires { 33 ≤ length bytes.now }
        ensures text { bytes.now ≡ head_bytes result.0 ++ result.1.now }
        ensures rest { length result.1.now + 33 ≡ length bytes.now }
    {
        let (term, rest) = split_number(bytes);
        let vote_byte = rest[0];
        let (candidate, rest) = split_number(&rest[1..]);
        let (base_index, rest) = split_number(rest);
        let (base_term, rest) = split_number(rest);
        let head = StateHead {
            term,
            vote_byte,
            candidate,
            base_index,
            base_term,
        };
        (head, rest)
    }

    /// Returns the base's index.
    pub fn base_index(&self) -> u64
        ensures { result ≡ self.now.base_index }
    {
        self.base_index
    }

    /// Returns the state in range with these numbers and this commit, if there is one.
    pub fn state(self, commit: u64) -> Option<VoterState>
        ensures some { IfSome result (λ state. HasHead state self × (state.commit ≡ commit) × IsBareState state) }
        ensures none { IfNone result (IsNoState self commit) }
    {
        let vote = self.vote()?;
        let state = VoterState {
            term: self.term,
            vote,
            base_index: self.base_index,
            base_term: self.base_term,
            last_index: self.base_index,
            last_term: self.base_term,
            commit,
        };
        if !state_fits(&state) {
            return None;
        }
        Some(state)
    }

    /// Returns the vote, if its byte and the candidate are valid.
    fn vote(&self) -> Option<Option<u64>>
        ensures small { IfSome result (λ vote. IfSome vote (λ c. c < 2 ^ 64)) }
        ensures some { IfSome result (λ vote. vote_text vote ≡ vote_bytes self.now) }
        ensures none { IfNone result (IsNoVote self.now) }
    {
        match (self.vote_byte, self.candidate) {
            (0, 0) => Some(None),
            (1, candidate) => Some(Some(candidate)),
            _ => None,
        }
    }
}
