//! The records that were taken from a journal.
ghost use Rattle.std.specs.Prelude.{◌≡◌, ◌+◌, ◌++◌, ◌^◌, ◌<◌, [], length};
ghost use Rattle.raft_voter_history.specs.History.{HasPart};

use crate::opening::Opening;
use raft_voter_history::{Claim, History, Keeper};
use std::marker::{Model, PhantomData};
use std::sync::Wait;

/// The records that were taken from a journal, one after another from the first on. Contracts see it as these records.
/// In memory it has only their number.
#[derive(Drop)]
pub struct Taken<L: Opening> {
    claim: Claim<L>,
    count: usize,
    of: PhantomData<L>,
}

impl<L: Opening> Model for Taken<L> {
    ghost use Rattle.std.specs.Prelude.{◌≡◌, List, length};
    ghost use Rattle.raft_voter_messages.specs.declared.round.Round.{Round};

    ghost Value = { List Round };

    ghost view = { λ t. t.claim.1 };

    ghost invariant = { λ t. (t.claim.0 ≡ 0) × (t.count ≡ length t.claim.1) };
}

impl<L: Opening> Taken<L> {
    ghost use Rattle.raft_voter_rounds.specs.Taking.{HasTaken};

    /// Returns the claim for no records, from which taking begins.
    pub fn none(claim: Claim<L>) -> Taken<L>
        requires { claim ≡ (0, []) }
        ensures { result ≡ [] }
    {
        Taken {
            claim,
            count: 0,
            of: PhantomData,
        }
    }

    /// Returns how many records were taken.
    pub fn len(&self) -> usize
        ensures { result ≡ length self.now }
    {
        self.count
    }

    /// Adds the records of a claim, which begin at the first place that wasn't taken.
    pub(crate) fn add(&mut self, history: &History<L>, claim: Claim<L>, more: usize)
        requires follows { claim.0 ≡ length self.old }
        requires more { (more ≡ length claim.1) × (length self.old + more < 2 ^ 64) }
        ensures { self.new ≡ self.old ++ claim.1 }
    {
        self.claim.join(history, claim);
        self.count += more;
    }

    /// Compares these records with the history, as `find` does, and keeps them.
    pub(crate) fn check<R: Wait>(&mut self, rt: &R, history: &History<L>, keeper: &mut Keeper<L>)
        ensures same { (self.new ≡ self.old) × (keeper.new ≡ keeper.old) }
        ensures found { HasTaken keeper.old self.old }
    {
        let again = self.claim.again(history);
        keeper.find(rt, history, again);
    }

    /// Compares these records with the history: it has them as its first ones.
    pub(crate) fn find<R: Wait>(self, rt: &R, history: &History<L>, keeper: &mut Keeper<L>)
        ensures same { keeper.new ≡ keeper.old }
        ensures found { HasTaken keeper.old self }
    {
        let Taken {
            claim,
            count: _,
            of: _,
        } = self;
        keeper.find(rt, history, claim);
    }
}
