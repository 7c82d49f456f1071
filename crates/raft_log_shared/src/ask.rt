//! Requests to write batches.
ghost use Rattle.std.specs.Prelude.{◌≡◌};
ghost use Rattle.raft_log_shared.specs.Requests.{IsAsked, claim_of, wish_of};

use crate::claim::Claim;
use crate::history::History;
use crate::keeper::Keeper;
use crate::opening::{Asks, Opening};
use std::marker::Model;
use std::sync::Wait;

/// Names a request of a caller to write a batch. It proves that the history of the requests has it. Contracts see it as
/// the request.
#[derive(Drop)]
pub struct Ask<L: Opening> {
    number: u64,
    claim: Claim<Asks<L>>,
}

impl<L: Opening> Model for Ask<L> {
    ghost use Rattle.std.specs.Prelude.{◌≡◌};
    ghost use Rattle.raft_log_shared.specs.Requests.{Wish, claim_of, wish_of};

    ghost Value = { Wish };

    ghost view = { λ a. wish_of a.claim };

    ghost invariant = { λ a. (a.number ≡ a.claim.0) × (a.claim ≡ claim_of (wish_of a.claim)) };
}

impl<L: Opening> Ask<L> {
    /// Returns the name of a request with this number, given the claim for it.
    pub(crate) fn new(number: u64, claim: Claim<Asks<L>>) -> Ask<L>
        requires number { number ≡ claim.0 }
        requires claims { claim ≡ claim_of (wish_of claim) }
        ensures { result ≡ wish_of claim }
    {
        Ask { number, claim }
    }

    /// Returns the number of the request.
    pub fn number(&self) -> u64
        ensures { result ≡ self.now.number }
    {
        self.number
    }

    /// Returns a second name of the same request.
    pub(crate) fn again(&mut self, asks: &History<Asks<L>>) -> Ask<L>
        ensures same { self.new ≡ self.old }
        ensures twin { result ≡ self.old }
    {
        Ask {
            number: self.number,
            claim: self.claim.again(asks),
        }
    }

    /// Compares the request with the history of the requests, which has it.
    pub(crate) fn find<R: Wait>(self, rt: &R, asks: &History<Asks<L>>, keeper: &mut Keeper<Asks<L>>)
        ensures same { keeper.new ≡ keeper.old }
        ensures found { IsAsked keeper.old self }
    {
        let Ask { number: _, claim } = self;
        keeper.find(rt, asks, claim);
    }
}
