//! The terms of a log's entries, without the entries.
ghost use Rattle.std.specs.Prelude.{◌≡◌, ℕ, ◌+◌, ◌-◌, ◌^◌, ◌<◌, ◌≤◌, ◌++◌, ◌∷◌, ◌⊎◌, [], IsTrue, None, take, drop, length, max, slice_get, vec_capacity, vec_len, OnOk, OnErr};
ghost use Rattle.std.specs.Option.{option_map};
ghost use Rattle.raft_voter_outline.specs.Runs.{are_runs, bare, runs_behind, runs_below, top_term};

use super::run::Run;
use crate::{Items, Memory};
use std::alloc::Global;
use std::marker::Model;

/// The base of a log, and the terms of the entries above it, as runs of equal terms. Its size grows with the number of
/// term changes. It finds a term by a binary search.
#[derive(Debug, Drop)]
pub struct TermRuns {
    base: u64,
    runs: Vec<Run>,
}

impl Model for TermRuns {
    ghost use Rattle.std.specs.Prelude.{◌-◌, vec_capacity, vec_len};
    ghost use Rattle.raft_voter_outline.specs.Runs.{AreRunsOf, Terms, unrolled};

    ghost Value = { Terms };

    ghost view = { λ t. record {
      base = t.base;
      log = unrolled t.base t.runs.items;
      room = vec_capacity t.runs - vec_len t.runs;
    } };

    ghost invariant = { λ t. AreRunsOf t.base t.runs.items };
}

impl TermRuns {
    /// Returns the terms of an empty log above this base.
    pub fn new(alloc: Global, base: u64) -> TermRuns
        requires { base < 2 ^ 63 }
        ensures at { result.base ≡ base }
        ensures empty { result.log ≡ [] }
    {
        TermRuns {
            base,
            runs: Vec::new(alloc),
        }
    }

    /// Returns the index of the base.
    pub fn base(&self) -> u64
        ensures { result ≡ self.now.base }
    {
        self.base
    }

    /// Returns the index of the last entry, or of the base.
    pub fn last_index(&self) -> u64
        ensures value { result ≡ self.now.base + length self.now.log }
        ensures small { result < 2 ^ 63 }
        ensures above { self.now.base ≤ result }
    {
        match self.runs.last() {
            Some(run) => run.last,
            None => self.base,
        }
    }

    /// Returns the term of the last entry, if there is one.
    pub fn last_term(&self) -> Option<u64>
        ensures { result ≡ top_term self.now.log }
    {
        let run = self.runs.last()?;
        Some(run.term)
    }

    /// Returns the term of the entry at an index above the base, if there is one.
    pub fn term_at(&self, index: u64) -> Option<u64>
        requires { self.now.base < index }
        ensures { result ≡ option_map (λ e. e.0) (slice_get self.now.log (index - self.now.base - 1)) }
    {
        let place = runs_below(self.runs.as_slice(), index);
        if place >= self.runs.len() {
            return None;
        }
        Some(self.runs[place].term)
    }

    /// Removes the entries above an index.
    pub fn keep_to(&mut self, index: u64)
        requires { self.old.base ≤ index }
        ensures base { self.new.base ≡ self.old.base }
        ensures log { self.new.log ≡ take (index - self.old.base) self.old.log }
        ensures room { self.old.room ≤ self.new.room }
    {
        if index == self.base {
            self.runs.clear();
            return;
        }
        let place = runs_below(self.runs.as_slice(), index);
        if place >= self.runs.len() {
            return;
        }
        let term = self.runs[place].term;
        self.runs.truncate(place);
        self.runs.push_reserved(Run { last: index, term });
    }

    /// Removes the entries up to an index, which becomes the base.
    pub fn compact_to(&mut self, index: u64)
        requires above { self.old.base ≤ index }
        requires within { index ≤ self.old.base + length self.old.log }
        ensures base { self.new.base ≡ index }
        ensures log { self.new.log ≡ drop (index - self.old.base) self.old.log }
        ensures room { self.old.room ≤ self.new.room }
    {
        let gone = runs_below(self.runs.as_slice(), index + 1);
        drop_front(&mut self.runs, gone);
        self.base = index;
    }

    /// Removes all entries and sets the base.
    pub fn clear(&mut self, base: u64)
        requires { base < 2 ^ 63 }
        ensures base { self.new.base ≡ base }
        ensures log { self.new.log ≡ [] }
        ensures room { self.old.room ≤ self.new.room }
    {
        self.runs.clear();
        self.base = base;
    }

    /// Sets the base. If it changes, there must be no entries.
    pub fn rest_on(&mut self, base: u64)
        requires rests { (base ≡ self.old.base) ⊎ (self.old.log ≡ []) }
        requires small { base < 2 ^ 63 }
        ensures base { self.new.base ≡ base }
        ensures log { self.new.log ≡ self.old.log }
        ensures room { self.old.room ≤ self.new.room }
    {
        if base == self.base {
            return;
        }
        self.clear(base);
    }

    /// Makes room for this many more runs. If there are no runs yet, makes room for just these, as most logs keep to
    /// one term. If memory runs out, the terms stay.
    pub fn reserve(&mut self, count: usize) -> Result<(), Memory>
        ensures base { self.new.base ≡ self.old.base }
        ensures log { self.new.log ≡ self.old.log }
        ensures ok { OnOk result (count ≤ self.new.room) }
        ensures first { OnOk result (self.old.log ≡ [] → self.new.room ≡ max self.old.room count) }
        ensures err { OnErr result (self.old.room < count) }
    {
        if self.runs.is_empty() {
            self.runs.reserve_exact(count)?;
            return Ok(());
        }
        self.runs.reserve(count)?;
        Ok(())
    }

    /// Makes room for one more entry, of this term. It needs none if it joins the last run. If memory runs out, the
    /// terms stay.
    pub fn reserve_one(&mut self, term: u64) -> Result<(), Memory>
        ensures base { self.new.base ≡ self.old.base }
        ensures log { self.new.log ≡ self.old.log }
        ensures ok { OnOk result (runs_behind (top_term self.old.log) ((term, []) ∷ []) ≤ self.new.room) }
        ensures first { OnOk result (self.old.log ≡ [] → self.new.room ≡ max self.old.room 1) }
        ensures joins { runs_behind (top_term self.old.log) ((term, []) ∷ []) ≡ 0 → self.new.room ≡ self.old.room }
        ensures err { OnErr result (self.old.room ≡ 0) }
    {
        if self.last_term() != Some(term) {
            return self.reserve(1);
        }
        Ok(())
    }

    /// Appends an entry of this term.
    pub fn push(&mut self, term: u64)
        requires small { self.old.base + length self.old.log + 1 < 2 ^ 63 }
        requires room { runs_behind (top_term self.old.log) ((term, []) ∷ []) ≤ self.old.room }
        ensures base { self.new.base ≡ self.old.base }
        ensures log { self.new.log ≡ self.old.log ++ (term, []) ∷ [] }
        ensures room { self.new.room + runs_behind (top_term self.old.log) ((term, []) ∷ []) ≡ self.old.room }
    {
        let last = self.last_index() + 1;
        if self.last_term() == Some(term) {
            self.runs.truncate(self.runs.len() - 1);
            self.runs.push_reserved(Run { last, term });
            return;
        }
        self.runs.push_reserved(Run { last, term });
    }

    /// Appends entries, of which only the terms are kept.
    pub fn extend(&mut self, entries: &[(u64, Items<u8>)])
        requires small { self.old.base + length self.old.log + length entries.now < 2 ^ 63 }
        requires room { runs_behind (top_term self.old.log) entries.now ≤ self.old.room }
        ensures base { self.new.base ≡ self.old.base }
        ensures log { self.new.log ≡ self.old.log ++ bare entries.now }
        ensures room { self.new.room + runs_behind (top_term self.old.log) entries.now ≡ self.old.room }
    {
        for (term, _) in entries {
            self.push(*term);
        }
    }
}

/// Removes the first runs.
fn drop_front(list: &mut Vec<Run>, count: usize)
    requires { count ≤ vec_len list.old }
    ensures items { list.new.items ≡ drop count list.old.items }
    ensures capacity { vec_capacity list.new ≡ vec_capacity list.old }
{
    drop(list.drain(..count));
}

/// How many runs end below an index.
fn runs_below(runs: &[Run], index: u64) -> usize
    requires { (base : ℕ) × IsTrue (are_runs base runs.now) }
    ensures value { result ≡ runs_below index runs.now }
    ensures bound { result ≤ length runs.now }
{
    runs.partition_point(|run| run.last < index)
}

/// How many runs these entries make.
pub fn runs_in(entries: &[(u64, Items<u8>)]) -> usize
    ensures { result ≡ runs_behind None entries.now }
{
    let mut count = 0;
    let mut before = None;
    for (term, _) in entries {
        if before != Some(*term) {
            count += 1;
        }
        before = Some(*term);
    }
    count
}
