//! Receipts of served rounds.
ghost use Rattle.std.specs.Prelude.{◌≡◌, ◌∷◌, []};

use crate::opening::Opening;
use raft_voter::{Cause, Items, Reply, Request};
use raft_voter_history::{Claim, History, Keeper};
use std::marker::Model;
use std::sync::Wait;
use thiserror::Error;

/// What a receipt states of a round with replies: its seat, its place in the journal, its requests and its replies.
#[derive(Debug, PartialEq, Drop)]
pub struct Statement {
    /// The number of the seat that submitted it.
    pub seat: u64,
    /// How many rounds of that seat are in the journal before it.
    pub turn: u64,
    /// The place of its record in the journal, counted from 0.
    pub place: usize,
    /// Each request with its group, in order.
    pub requests: Items<(u64, Request)>,
    /// The reply to each.
    pub replies: Items<Reply>,
}

/// The receipt of a round with replies. It proves that the history of the store has the round's record at its place.
/// Contracts see it as what it states.
#[derive(Drop)]
pub struct Receipt<L: Opening> {
    statement: Statement,
    claim: Claim<L>,
}

impl<L: Opening> Model for Receipt<L> {
    ghost use Rattle.std.specs.Prelude.{◌≡◌, ◌∷◌, []};
    ghost use Rattle.raft_voter_rounds.specs.Proving.{record_of};
    ghost use Rattle.raft_voter_rounds.specs.declared.receipt.Statement.{Statement};

    ghost Value = { Statement };

    ghost view = { λ r. r.statement };

    ghost invariant = { λ r. r.claim ≡ (r.statement.place, record_of r.statement ∷ []) };
}

impl<L: Opening> Receipt<L> {
    ghost use Rattle.raft_voter_rounds.specs.Proving.{IsAt, record_of};

    /// Returns the receipt that states this. The claim proves that the history has the record.
    pub(crate) fn new(statement: Statement, claim: Claim<L>) -> Receipt<L>
        requires { claim ≡ (statement.place, record_of statement ∷ []) }
        ensures { result ≡ statement }
    {
        Receipt { statement, claim }
    }

    /// Returns what it states.
    pub fn statement(&self) -> &Statement
        ensures { result.now ≡ self.now }
    {
        &self.statement
    }

    /// Compares the receipt with the history, which has its record at its place.
    pub(crate) fn find<R: Wait>(&mut self, rt: &R, history: &History<L>, keeper: &mut Keeper<L>)
        ensures same { (self.new ≡ self.old) × (keeper.new ≡ keeper.old) }
        ensures found { IsAt keeper.old self.old }
    {
        let again = self.claim.again(history);
        keeper.find(rt, history, again);
    }
}

/// Why there is no receipt for a round.
#[derive(Clone, Copy, Debug, PartialEq, Eq, Error)]
pub enum SharedFault {
    /// The round was cut off for this cause, and its record is in the journal at this place. Each round that was served
    /// with it was cut off for the same cause.
    #[error("round {place} cut off: {cause}")]
    Cut {
        /// The place of its record.
        place: usize,
        /// The cause.
        cause: Cause,
    },
    /// There was no memory for its receipt, for the queue, or for the records of the rounds that were to be served with
    /// it. Nothing was taken, and the journal has no record of it.
    #[error("out of memory")]
    Memory,
}
