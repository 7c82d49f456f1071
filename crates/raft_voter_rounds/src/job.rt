//! Rounds that callers hand in.
ghost use Rattle.std.specs.Prelude.{◌≡◌, ◌+◌, ◌<◌, ◌≤◌, [], length, Err};
ghost use Rattle.raft_voter_rounds.specs.declared.receipt.SharedFault.TheVariants as faults;

use crate::caller::Caller;
use crate::done::Done;
use crate::draft::Draft;
use crate::opening::Opening;
use crate::ticket::Ticket;
use raft_voter::{Items, Request};
use std::sync::ledger::Share;

/// A round that a caller hands in, with the share of its seat.
#[derive(Drop)]
pub struct Job<L: Opening> {
    /// The round.
    pub ticket: Ticket,
    /// The share, which has all parts of the seat and counts its rounds.
    pub share: Share<L>,
    /// The requests, for the receipt.
    pub requests: Items<(u64, Request)>,
    /// The requests, and the memory that the record and the replies need.
    pub draft: Draft,
    ghost held: { share.parts ≡ ticket.parts },
    ghost counted: { share.amount ≡ ticket.turn },
    ghost some: { 0 < ticket.parts },
    ghost asked: { length draft.requests.items ≡ ticket.count },
    ghost same: { requests ≡ draft.requests.items },
    ghost count: { draft.count ≡ ticket.count },
}

/// The part of a round in a merged round: its requests are with those of the other rounds.
#[derive(Drop)]
pub struct Part<L: Opening> {
    /// The round.
    pub ticket: Ticket,
    share: Share<L>,
    /// Its requests, for the receipt.
    pub requests: Items<(u64, Request)>,
    draft: Draft,
    ghost held: { share.parts ≡ ticket.parts },
    ghost counted: { share.amount ≡ ticket.turn },
    ghost some: { 0 < ticket.parts },
    ghost asked: { length requests ≡ ticket.count },
    ghost empty: { draft.requests.items ≡ [] },
    ghost count: { draft.count ≡ ticket.count },
}

impl<L: Opening> Job<L> {
    ghost use Rattle.std.specs.Prelude.{◌++◌, vec_capacity, vec_len};

    /// Returns the part of the round in a merged one, and appends its requests to those of the others. There must be
    /// room for them.
    pub fn join(self, asked: &mut Vec<(u64, Request)>) -> Part<L>
        requires { vec_len asked.old + self.ticket.count ≤ vec_capacity asked.old }
        ensures ticket { result.ticket ≡ self.ticket }
        ensures requests { result.requests ≡ self.requests }
        ensures asked { asked.new.items ≡ asked.old.items ++ self.draft.requests.items }
    {
        let Job {
            ticket,
            share,
            requests,
            mut draft,
        } = self;
        draft.hand_over(asked);
        Part {
            ticket,
            share,
            requests,
            draft,
        }
    }

    /// Returns the answer to a round for which there was no memory.
    pub fn refused(self) -> Done<L>
        ensures ticket { result.ticket ≡ self.ticket }
        ensures answer { result.answer ≡ Err faults.Memory }
    {
        let Job {
            ticket,
            share,
            requests,
            draft: _draft,
        } = self;
        Caller {
            ticket,
            share,
            requests,
        }
        .refused()
    }
}

impl<L: Opening> Part<L> {
    /// Returns the memory for the record and the replies, and the caller.
    pub(crate) fn split(self) -> (Draft, Caller<L>)
        ensures empty { result.0.requests.items ≡ [] }
        ensures count { result.0.count ≡ self.ticket.count }
        ensures ticket { result.1.ticket ≡ self.ticket }
        ensures requests { result.1.requests ≡ self.requests }
    {
        let Part {
            ticket,
            share,
            requests,
            draft,
        } = self;
        let caller = Caller {
            ticket,
            share,
            requests,
        };
        (draft, caller)
    }
}
