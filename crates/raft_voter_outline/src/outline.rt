//! The part of a voter that its decisions need: its state, and the terms of its log.
ghost use Rattle.std.specs.Prelude.{◌≡◌, ◌+◌, ◌-◌, ◌^◌, ◌<◌, ◌≤◌, ◌&&◌, [], ◌∷◌, None, nat_le, is_some, IsTrue, length, drop, OnOk, OnErr};
ghost use Rattle.raft_voter_outline.specs.Outlines.{ChangesEach, Decides, sent_of, stored_state, without_bytes};
ghost use Rattle.raft_voter_outline.specs.Rules.{agrees_at, next};
ghost use Rattle.raft_voter_outline.specs.Runs.{runs_behind};
ghost use Rattle.raft_voter_outline.specs.State.{fresh, last_index, last_term, state_of, term_at};

mod apply;
mod decide;
mod decision;
mod plans;
mod restoring;
mod run;
mod term_runs;

use crate::{Items, Memory, VoterState};
pub use decision::{Answer, Change, Decision, Write};
use std::alloc::Global;
use std::marker::Model;
use term_runs::TermRuns;

/// A voter without its entries: its state, and the terms of its log as runs of equal terms. It decides the voter's
/// reply and next state. Contracts see it as a `State` whose entries have no bytes, and the room for more runs
/// (`Outlined`).
#[derive(Debug, Drop)]
pub struct Outline {
    alloc: Global,
    term: u64,
    vote: Option<u64>,
    base_term: u64,
    commit: u64,
    terms: TermRuns,
}

impl Model for Outline {
    ghost use Rattle.raft_voter_outline.specs.Outlines.{IsOutline, outlined, Outlined};

    ghost Value = { Outlined };

    ghost view = { λ o. outlined o.term o.vote o.base_term o.commit o.terms };

    ghost invariant = { λ o. IsOutline o.terms o.commit };
}

impl Outline {
    /// Returns the outline of a fresh voter.
    pub fn new(alloc: Global) -> Outline
        ensures { result.voter ≡ fresh }
    {
        Outline {
            alloc,
            term: 0,
            vote: None,
            base_term: 0,
            commit: 0,
            terms: TermRuns::new(alloc, 0),
        }
    }

    /// Returns the voter's state.
    pub fn state(&self) -> VoterState
        ensures value { result ≡ state_of self.now.voter }
        ensures small { result.last_index < 2 ^ 63 }
        ensures above { result.base_index ≤ result.last_index }
        ensures committed { result.base_index ≤ result.commit }

        // An outline is the outline of a voter: itself.
        ensures own { without_bytes self.now.voter ≡ self.now.voter }
    {
        VoterState {
            term: self.term,
            vote: self.vote,
            base_index: self.terms.base(),
            base_term: self.base_term,
            last_index: self.terms.last_index(),
            last_term: self.last_term(),
            commit: self.commit,
        }
    }

    /// Returns the index of the base.
    pub fn base_index(&self) -> u64
        ensures { result ≡ self.now.voter.base_index }
    {
        self.terms.base()
    }

    /// Returns the state as it is stored: with the base in place of the last entry.
    fn stored_state(&self) -> VoterState
        ensures { result ≡ stored_state self.now.voter }
    {
        VoterState {
            term: self.term,
            vote: self.vote,
            base_index: self.terms.base(),
            base_term: self.base_term,
            last_index: self.terms.base(),
            last_term: self.base_term,
            commit: self.commit,
        }
    }

    /// Returns the index of the last entry, or the base's.
    fn last_index(&self) -> u64
        ensures value { result ≡ last_index self.now.voter }
        ensures small { result < 2 ^ 63 }
    {
        self.terms.last_index()
    }

    /// Returns the term of the last entry, or the base's.
    fn last_term(&self) -> u64
        ensures { result ≡ last_term self.now.voter }
    {
        match self.terms.last_term() {
            Some(term) => term,
            None => self.base_term,
        }
    }

    /// Returns the term of the entry at an index, or of the base. Returns `None` if the voter has neither there.
    pub fn term_at(&self, index: u64) -> Option<u64>
        ensures value { result ≡ term_at self.now.voter index }
    {
        let base_index = self.terms.base();
        if index == base_index {
            return Some(self.base_term);
        }
        if index < base_index {
            return None;
        }
        self.terms.term_at(index)
    }

    /// Whether the entry at this index, or the base, has this term.
    fn agrees_at(&self, index: u64, term: u64) -> bool
        ensures value { result ≡ agrees_at self.now.voter index term }
    {
        match self.term_at(index) {
            Some(own) => own == term,
            None => false,
        }
    }
}
