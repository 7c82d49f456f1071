//! Answers to callers.
ghost use Rattle.std.specs.Prelude.{◌≡◌, ◌+◌, ◌∷◌, [], true, length, IfNone, IfSome, Some};
ghost use Rattle.std.specs.Bool.{Decides};
ghost use Rattle.raft_voter_rounds.specs.Noting.{answered, may_tell, records_in};
ghost use Rattle.raft_voter_rounds.specs.Proving.{claim_of};

use crate::opening::Opening;
use crate::receipt::{Receipt, SharedFault, Statement};
use crate::ticket::Ticket;
use raft_voter::{Items, Reply, Request};
use raft_voter_history::Claim;
use std::sync::ledger::Share;

/// The place of a round's record in the journal, and the replies.
#[derive(Drop)]
pub struct Told {
    /// The place, counted from 0.
    pub place: usize,
    /// The reply to each request.
    pub replies: Items<Reply>,
}

/// The answer to a caller, with the seat's share of the ledger. A claim proves that the history has its record.
#[derive(Drop)]
pub struct Done<L: Opening> {
    /// The round.
    pub ticket: Ticket,
    /// The share, which counts the round if the journal has its record.
    pub share: Share<L>,
    /// How many rounds of the seat are in the journal now.
    pub after: u64,
    /// The requests of the round.
    pub requests: Items<(u64, Request)>,
    /// The place and the replies, or why there are none.
    pub answer: Result<Told, SharedFault>,
    /// The claim that the history has the round's record at this place, if there are replies.
    pub claim: Option<Claim<L>>,
    ghost held: { share.parts ≡ ticket.parts },
    ghost counted: { share.amount ≡ after },
    ghost counts: { after ≡ ticket.turn + records_in answer },
    ghost length: { may_tell answer ticket.count ≡ true },
    ghost proves: { claim ≡ claim_of requests answer },
}

impl<L: Opening> Done<L> {
    ghost use Rattle.std.specs.Prelude.{◌<◌, ◌≤◌, is_ok, IfErr, IfOk, OnOk};
    ghost use Rattle.raft_voter_rounds.specs.Noting.{records_of, ToldOfLength};

    /// Whether this is the answer to a round of these requests.
    pub fn is_to(&self, requests: &[(u64, Request)]) -> bool
        ensures { Decides result (self.now.requests ≡ requests.now) }
    {
        are_asked(self.requests.as_slice(), requests)
    }

    /// Returns the receipt, or why there is none, the share, and how many rounds of the seat are in the journal.
    pub fn into_receipt(self) -> (Result<Receipt<L>, SharedFault>, Share<L>, u64)
        ensures seat { IfOk result.0 (λ receipt. (receipt.seat ≡ self.ticket.number)
            × (receipt.turn ≡ self.ticket.turn)) }
        ensures requests { IfOk result.0 (λ receipt. receipt.requests ≡ self.requests) }
        ensures length { (OnOk result.0 (self.ticket.count ≤ 4096))
            × (IfErr result.0 (λ fault. ToldOfLength fault self.ticket.count)) }
        ensures counts { (OnOk result.0 (result.2 ≡ self.ticket.turn + 1))
            × (IfErr result.0 (λ fault. result.2 ≡ self.ticket.turn + records_of fault)) }
        ensures share { (result.1.parts ≡ self.ticket.parts) × (result.1.amount ≡ result.2) }
        ensures ok { OnOk result.0 (is_ok self.answer ≡ true) }
    {
        let Done {
            ticket,
            share,
            after,
            requests,
            answer,
            claim,
        } = self;
        match answer {
            Ok(told) => (Ok(receipt_of(ticket, requests, told, claim)), share, after),
            Err(fault) => (Err(fault), share, after),
        }
    }
}

/// Returns the receipt of a round with these replies. The claim, which must be there, proves that the history has its
/// record.
fn receipt_of<L: Opening>(
    ticket: Ticket,
    requests: Items<(u64, Request)>,
    told: Told,
    claim: Option<Claim<L>>,
) -> Receipt<L>
    requires { claim ≡ Some (told.place, answered requests told.replies ∷ []) }
    ensures { result ≡ record {
      seat = ticket.number;
      turn = ticket.turn;
      place = told.place;
      requests = requests;
      replies = told.replies;
    } }
{
    match claim {
        Some(claim) => {
            let statement = Statement {
                seat: ticket.number,
                turn: ticket.turn,
                place: told.place,
                requests,
                replies: told.replies,
            };
            Receipt::new(statement, claim)
        }
        None => unreachable!(),
    }
}

/// Removes the answer to this round and returns it. Returns `None` if it isn't among these.
pub fn fetch<L: Opening>(done: &mut Vec<Done<L>>, ticket: Ticket) -> Option<Done<L>>
    ensures some { IfSome result (λ answer. (answer.ticket ≡ ticket)
        × (length done.new.items + 1 ≡ length done.old.items)) }
    ensures none { IfNone result (done.new.items ≡ done.old.items) }
{
    for index in 0..done.len() {
        if done[index].ticket.is_same(&ticket) {
            return Some(done.swap_remove(index));
        }
    }
    None
}

/// Whether the answer to this round is among these.
pub fn has_answer<L: Opening>(done: &[Done<L>], ticket: Ticket) -> bool {
    done.iter().any(|answer| answer.ticket.is_same(&ticket))
}

/// Whether these are the same requests.
pub fn are_asked(requests: &[(u64, Request)], others: &[(u64, Request)]) -> bool
    ensures { Decides result (requests.now ≡ others.now) }
{
    requests == others
}
