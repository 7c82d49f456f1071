//! Callers that wait for the answers to their rounds.
ghost use Rattle.std.specs.Prelude.{◌≡◌, ◌+◌, ◌<◌, ◌≤◌, ◌^◌, ◌∷◌, [], length, true, Err, Ok};
ghost use Rattle.raft_voter_rounds.specs.Noting.{answered, may_cut};
ghost use Rattle.raft_voter_rounds.specs.declared.receipt.SharedFault.TheVariants as faults;

use crate::done::{Done, Told};
use crate::opening::Opening;
use crate::receipt::SharedFault;
use crate::ticket::Ticket;
use raft_voter::{Cause, Items, Reply, Request};
use raft_voter_history::Claim;
use std::sync::ledger::{Book, Share};

/// A caller that waits for the answer to its round, with the share of its seat.
#[derive(Drop)]
pub struct Caller<L: Opening> {
    /// The round.
    pub ticket: Ticket,
    /// The share, which has all parts of the seat and counts its rounds.
    pub share: Share<L>,
    /// The requests of the round, for the receipt.
    pub requests: Items<(u64, Request)>,
    ghost held: { share.parts ≡ ticket.parts },
    ghost counted: { share.amount ≡ ticket.turn },
    ghost some: { 0 < ticket.parts },
    ghost asked: { length requests ≡ ticket.count },
}

impl<L: Opening> Caller<L> {
    /// Returns the answer to a round with these replies: its place and its replies. The round has at most 4,096
    /// requests. The claim proves that the history has its record there. The book and the share count the record.
    pub fn answered(
        self,
        book: &mut Book<L>,
        place: usize,
        replies: Items<Reply>,
        claim: Claim<L>,
    ) -> Done<L>
        requires within { book.old.total + 1 < 2 ^ 64 }
        requires short { self.ticket.count ≤ 4096 }
        requires proves { claim ≡ (place, answered self.requests replies ∷ []) }
        ensures ticket { result.ticket ≡ self.ticket }
        ensures answer { result.answer ≡ Ok (record { place = place; replies = replies }) }
        ensures total { book.new.total ≡ book.old.total + 1 }
    {
        let Caller {
            ticket,
            mut share,
            requests,
        } = self;
        let after = count(book, &mut share, ticket.turn);
        Done {
            ticket,
            share,
            after,
            requests,
            answer: Ok(Told { place, replies }),
            claim: Some(claim),
        }
    }

    /// Returns the answer to a round that was cut off for this cause, which is `TooLong` exactly if the round has more
    /// than 4,096 requests. The book and the share count its record.
    pub fn cut_off(self, book: &mut Book<L>, place: usize, cause: Cause) -> Done<L>
        requires within { book.old.total + 1 < 2 ^ 64 }
        requires cause { may_cut cause self.ticket.count ≡ true }
        ensures ticket { result.ticket ≡ self.ticket }
        ensures answer { result.answer ≡ Err (faults.Cut place cause) }
        ensures total { book.new.total ≡ book.old.total + 1 }
    {
        let Caller {
            ticket,
            mut share,
            requests,
        } = self;
        let after = count(book, &mut share, ticket.turn);
        Done {
            ticket,
            share,
            after,
            requests,
            answer: Err(SharedFault::Cut { place, cause }),
            claim: None,
        }
    }

    /// Returns the answer to a round for which there was no memory.
    pub fn refused(self) -> Done<L>
        ensures ticket { result.ticket ≡ self.ticket }
        ensures answer { result.answer ≡ Err faults.Memory }
    {
        let Caller {
            ticket,
            share,
            requests,
        } = self;
        Done {
            ticket,
            share,
            after: ticket.turn,
            requests,
            answer: Err(SharedFault::Memory),
            claim: None,
        }
    }
}

/// Counts another record, in the book and in a share that has counted `turn` of them. Returns how many the share has
/// counted now.
fn count<L: Opening>(book: &mut Book<L>, share: &mut Share<L>, turn: u64) -> u64
    requires some { 0 < share.old.parts }
    requires counted { share.old.amount ≡ turn }
    requires within { book.old.total + 1 < 2 ^ 64 }
    ensures after { result ≡ turn + 1 }
    ensures total { book.new.total ≡ book.old.total + 1 }
    ensures amount { share.new.amount ≡ turn + 1 }
    ensures parts { share.new.parts ≡ share.old.parts }
{
    book.audit(share);
    book.add(share, 1);
    turn + 1
}
