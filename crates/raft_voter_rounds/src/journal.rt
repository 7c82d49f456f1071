//! The journal of a shared store.
ghost use Rattle.std.specs.Prelude.{◌≡◌, ◌+◌, ◌-◌, ◌≤◌, ◌<◌, ◌^◌, ◌++◌, ◌∷◌, [], drop, false, length, vec_capacity, vec_len, OnOk};

use crate::opening::Opening;
use crate::receipt::Receipt;
use crate::taken::Taken;
use raft_voter::Round;
use raft_voter_history::{Claim, History, Keeper};
use std::alloc::{AllocError, Global};
use std::mem;
use std::sync::Wait;

/// The journal of a shared store: the history of its rounds, which exists in proofs alone, and the last records, if
/// they are kept in memory.
#[derive(Drop)]
pub struct Journal<L: Opening> {
    alloc: Global,
    history: Keeper<L>,
    count: usize,
    kept: Vec<Round>,
    keeps: bool,
    ghost counted: { count ≡ length history },
    ghost fewer: { length kept.items ≤ count },
    ghost last: { drop (count - length kept.items) history ≡ kept.items },
    ghost none: { keeps ≡ false → length kept.items ≡ 0 },
}

impl<L: Opening> Journal<L> {
    ghost use Rattle.std.specs.List.{All};
    ghost use Rattle.raft_voter_rounds.specs.Proving.{IsAt};
    ghost use Rattle.raft_voter_rounds.specs.Taking.{HasTaken, TakesKept};

    /// Returns an empty journal. It keeps its records in memory if `keeps` is true.
    pub fn new(alloc: Global, history: Keeper<L>, keeps: bool) -> Journal<L>
        requires { history ≡ [] }
        ensures { result.history ≡ [] }
    {
        Journal {
            alloc,
            history,
            count: 0,
            kept: Vec::new(alloc),
            keeps,
        }
    }

    /// Returns how many records the history has.
    pub fn len(&self) -> usize
        ensures { result ≡ length self.now.history }
    {
        self.count
    }

    /// Makes room for `more` records. Fails if memory runs out, or if the history would have 2^64 records or more.
    pub fn reserve(&mut self, more: usize) -> Result<(), AllocError>
        ensures history { self.new.history ≡ self.old.history }
        ensures room { OnOk result (vec_len self.new.kept + more ≤ vec_capacity self.new.kept) }
        ensures count { OnOk result (length self.new.history + more < 2 ^ 64) }
    {
        if more > usize::MAX - self.count {
            return Err(AllocError);
        }
        self.kept.reserve(more)
    }

    /// Adds a record at the end, and returns a claim for it. It is kept in memory only if records are. There must be
    /// room for it.
    pub fn note<R: Wait>(&mut self, rt: &R, history: &History<L>, round: Round) -> Claim<L>
        requires room { vec_len self.old.kept < vec_capacity self.old.kept }
        requires count { length self.old.history + 1 < 2 ^ 64 }
        ensures noted { self.new.history ≡ self.old.history ++ round ∷ [] }
        ensures claim { result ≡ (length self.old.history, round ∷ []) }
        ensures capacity { vec_capacity self.new.kept ≡ vec_capacity self.old.kept }
        ensures len { vec_len self.new.kept ≤ vec_len self.old.kept + 1 }
    {
        let Journal {
            alloc: _,
            history: keeper,
            count,
            kept,
            keeps,
        } = self;
        let claim = keeper.note(rt, history, &round);
        *count += 1;
        if !*keeps {
            return claim;
        }
        kept.push_reserved(round);
        claim
    }

    /// Removes the records from memory and returns them if they follow those that were taken before. Then all records
    /// of the history were taken. Otherwise nothing changes, and none are returned. The history stays.
    pub fn take<R: Wait>(
        &mut self,
        rt: &R,
        history: &History<L>,
        taken: &mut Taken<L>,
    ) -> Vec<Round>
        ensures history { self.new.history ≡ self.old.history }
        ensures taken { taken.new ≡ taken.old ++ result.items }
        ensures all { TakesKept self.old.history self.old.kept.items self.new.kept.items taken.old taken.new }
    {
        let Journal {
            alloc,
            history: keeper,
            count,
            kept,
            keeps: _,
        } = self;
        taken.check(rt, history, keeper);
        let first = *count - kept.len();
        if first != taken.len() {
            return Vec::new(*alloc);
        }
        let claim = keeper.claim(history, first, kept.as_slice());
        taken.add(history, claim, kept.len());
        mem::replace(kept, Vec::new(*alloc))
    }

    /// Compares receipts with the history, which has the record of each at its place.
    pub fn confirm<R: Wait>(&mut self, rt: &R, history: &History<L>, receipts: &mut [Receipt<L>])
        ensures receipts { receipts.new ≡ receipts.old }
        ensures history { self.new.history ≡ self.old.history }
        ensures kept { self.new.kept ≡ self.old.kept }
        ensures found { All (λ r. IsAt self.old.history r) receipts.old }
    {
        let Journal {
            alloc: _,
            history: keeper,
            count: _,
            kept: _,
            keeps: _,
        } = self;
        for receipt in receipts.iter_mut() {
            receipt.find(rt, history, keeper);
        }
    }

    /// Returns the place of the first record that is kept, and the records that are kept. If none is, the place is the
    /// number of all records. The history has all records that were taken, as its first ones.
    pub fn close<R: Wait>(
        self,
        rt: &R,
        history: &History<L>,
        taken: Taken<L>,
    ) -> (usize, Vec<Round>)
        ensures kept { drop result.0 self.history ≡ result.1.items }
        ensures all { result.0 + length result.1.items ≡ length self.history }
        ensures first { result.0 ≡ length self.history - length self.kept.items }
        ensures same { result.1.items ≡ self.kept.items }
        ensures taken { HasTaken self.history taken }
    {
        let Journal {
            alloc: _,
            history: mut keeper,
            count,
            kept,
            keeps: _,
        } = self;
        taken.find(rt, history, &mut keeper);
        (count - kept.len(), kept)
    }

    /// Returns the claim for no records, from which taking begins.
    pub fn none_taken(&mut self, history: &History<L>) -> Taken<L>
        ensures taken { result ≡ [] }
        ensures history { self.new.history ≡ self.old.history }
        ensures kept { self.new.kept ≡ self.old.kept }
    {
        let none: Vec<Round> = Vec::new(self.alloc);
        Taken::none(self.history.claim(history, 0, none.as_slice()))
    }

    /// Returns the place of the first record that is kept; if none is, the number of all records.
    pub fn first(&self) -> usize
        ensures { result ≡ length self.now.history - length self.now.kept.items }
    {
        self.count - self.kept.len()
    }

    /// Returns the records that are kept.
    pub fn kept(&self) -> &[Round]
        ensures { result.now ≡ self.now.kept.items }
    {
        self.kept.as_slice()
    }
}
