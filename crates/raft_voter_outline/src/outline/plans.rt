//! Plans of requests in range, before anything changes.
ghost use Rattle.std.specs.Prelude.{◌≡◌, ◌+◌, ◌-◌, ◌^◌, ◌<◌, ◌≤◌, ◌==◌, true, drop, length};
ghost use Rattle.std.specs.Option.{option_map_or};
ghost use Rattle.raft_voter_messages.specs.declared.request.Request.TheVariants.{Append, Compact, Install, Retire, Vote};
ghost use Rattle.raft_voter_outline.specs.Outlines.{all_gone, brought};
ghost use Rattle.raft_voter_outline.specs.Plans.{Plans, with_term};
ghost use Rattle.raft_voter_outline.specs.Rules.{is_up_to_date, matching};
ghost use Rattle.raft_voter_outline.specs.declared.outline.decision.Write.TheVariants.{StateAlone};

use super::{Outline, Write};
use crate::{Items, Reply, VoterState};

/// The reply, state and write of a request in range, whether it changes anything or not.
#[derive(Drop)]
pub struct Plan {
    /// The reply.
    pub reply: Reply,
    /// The next state, as it is stored.
    pub state: VoterState,
    /// What to do to the log.
    pub write: Write,
}

/// Returns a plan that doesn't write to the log.
fn state_alone(reply: Reply, state: VoterState) -> Plan
    ensures { result ≡ record { reply = reply; state = state; write = StateAlone } }
{
    let write = Write::StateAlone;
    Plan {
        reply,
        state,
        write,
    }
}

/// Returns the state with this term and no vote if the term is higher than its own, otherwise the same state.
fn with_term(state: VoterState, term: u64) -> VoterState
    ensures { result ≡ with_term state term }
{
    if state.term < term {
        let vote = None;
        return VoterState {
            term,
            vote,
            ..state
        };
    }
    state
}

impl Outline {
    /// A candidate asks for a vote (Raft paper, RequestVote receiver).
    pub(super) fn vote(&self, term: u64, candidate: u64, last_index: u64, last_term: u64) -> Plan
        ensures { Plans self.now.voter (Vote term candidate last_index last_term) result }
    {
        let state = self.stored_state();
        if term < state.term {
            return state_alone(Reply::Denied(state.term), state);
        }
        let state = with_term(state, term);
        if !may_vote(&state, candidate) || !self.is_up_to_date(last_index, last_term) {
            return state_alone(Reply::Denied(state.term), state);
        }
        let vote = Some(candidate);
        state_alone(Reply::Granted(term), VoterState { vote, ..state })
    }

    /// Whether a log that ends at this index with this term is at least as up to date as this one (Raft
    /// paper, 5.4.1).
    fn is_up_to_date(&self, index: u64, term: u64) -> bool
        ensures { result ≡ is_up_to_date self.now.voter index term }
    {
        let own = self.last_term();
        own < term || (term == own && self.last_index() <= index)
    }

    /// A leader sends entries (Raft paper, AppendEntries receiver).
    pub(super) fn append(
        &self,
        term: u64,
        prev_index: u64,
        prev_term: u64,
        commit: u64,
        entries: &[(u64, Items<u8>)],
    ) -> Plan
        requires { prev_index + length entries.now < 2 ^ 63 }
        ensures { Plans self.now.voter (Append term prev_index prev_term commit entries.now) result }
    {
        let state = self.stored_state();
        if term < state.term {
            return state_alone(Reply::Stale(state.term), state);
        }
        let state = with_term(state, term);
        if prev_index < state.base_index {
            return state_alone(Reply::Base(state.base_index), state);
        }
        if !self.agrees_at(prev_index, prev_term) {
            let below = prev_index.saturating_sub(1);
            return state_alone(Reply::Mismatch(self.last_index().min(below)), state);
        }
        let last = prev_index + entries.len() as u64;
        let commit = state.commit.max(commit.min(last));
        Plan {
            reply: Reply::Matched(last),
            state: VoterState { commit, ..state },
            write: self.brought(prev_index, entries),
        }
    }

    /// Which of the entries that follow an index are written.
    fn brought(&self, prev_index: u64, entries: &[(u64, Items<u8>)]) -> Write
        requires above { self.now.voter.base_index ≤ prev_index }
        requires small { prev_index + length entries.now < 2 ^ 63 }
        ensures { result ≡ brought
            (matching (drop (prev_index - self.now.voter.base_index) self.now.voter.log) entries.now)
            prev_index entries.now }
    {
        let skipped = self.matching(prev_index, entries);
        if skipped == entries.len() {
            return Write::StateAlone;
        }
        let index = prev_index + 1 + skipped as u64;
        Write::Entries { skipped, index }
    }

    /// How many of the entries that follow an index are in the log: those before the first one that is new or whose
    /// term differs.
    fn matching(&self, prev_index: u64, entries: &[(u64, Items<u8>)]) -> usize
        requires above { self.now.voter.base_index ≤ prev_index }
        requires small { prev_index + length entries.now < 2 ^ 63 }
        ensures value { result
            ≡ matching (drop (prev_index - self.now.voter.base_index) self.now.voter.log) entries.now }
        ensures bound { result ≤ length entries.now }
    {
        let mut count = 0;
        while count < entries.len() {
            let own = self.terms.term_at(prev_index + 1 + count as u64);
            let sent = entries[count].0;
            if own != Some(sent) {
                return count;
            }
            count += 1;
        }
        count
    }

    /// The node has a snapshot up to an index.
    pub(super) fn compact(&self, index: u64) -> Plan
        ensures { Plans self.now.voter (Compact index) result }
    {
        let state = self.stored_state();
        let base = (state.base_index, state.base_term);
        if index <= state.base_index || index > state.commit {
            return state_alone(Reply::Base(base.0), state);
        }
        let Some(base_term) = self.term_at(index) else {
            return state_alone(Reply::Base(base.0), state);
        };
        Plan {
            reply: Reply::Base(index),
            state: with_base(state, index, base_term),
            write: Write::CompactTo { index },
        }
    }

    /// The node installed a leader's snapshot (Raft paper, InstallSnapshot).
    pub(super) fn install(&self, term: u64, index: u64, entry_term: u64) -> Plan
        ensures { Plans self.now.voter (Install term index entry_term) result }
    {
        let state = self.stored_state();
        if term < state.term {
            return state_alone(Reply::Stale(state.term), state);
        }
        let state = with_term(state, term);
        if index <= state.base_index {
            return state_alone(Reply::Base(state.base_index), state);
        }
        let commit = state.commit.max(index);
        let state = VoterState {
            commit,
            ..with_base(state, index, entry_term)
        };
        let write = if self.agrees_at(index, entry_term) {
            Write::CompactTo { index }
        } else {
            self.all_gone()
        };
        Plan {
            reply: Reply::Base(index),
            state,
            write,
        }
    }

    /// The group leaves the node.
    pub(super) fn retire(&self) -> Plan
        ensures { Plans self.now.voter Retire result }
    {
        let state = VoterState {
            term: 0,
            vote: None,
            base_index: 0,
            base_term: 0,
            last_index: 0,
            last_term: 0,
            commit: 0,
        };
        Plan {
            reply: Reply::Retired,
            state,
            write: Write::Clean,
        }
    }

    /// Removes all entries, if there are any.
    fn all_gone(&self) -> Write
        ensures { result ≡ all_gone self.now.voter }
    {
        let index = self.last_index();
        if index == self.terms.base() {
            return Write::StateAlone;
        }
        Write::CompactTo { index }
    }
}

/// Whether the voter has not voted in this term, or has voted for this candidate.
fn may_vote(state: &VoterState, candidate: u64) -> bool
    ensures { result ≡ option_map_or (λ c. c == candidate) state.now.vote true }
{
    match state.vote {
        Some(chosen) => chosen == candidate,
        None => true,
    }
}

/// Returns the state with another base.
fn with_base(state: VoterState, index: u64, term: u64) -> VoterState
    ensures { result
        ≡ record state { base_index = index; base_term = term; last_index = index; last_term = term } }
{
    VoterState {
        base_index: index,
        base_term: term,
        last_index: index,
        last_term: term,
        ..state
    }
}
