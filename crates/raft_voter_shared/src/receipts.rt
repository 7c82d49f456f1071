//! Checks receipts against a journal.
ghost use Rattle.std.specs.Prelude.{◌≡◌, ◌+◌, ◌<◌, ◌≤◌, length, true, None, IfSome};
ghost use Rattle.std.specs.Bool.{Decides};
ghost use Rattle.raft_voter_shared.specs.Clashing.{NoneClashes};
ghost use Rattle.raft_voter_shared.specs.Receipts.{clash, clashes, AllRight, IsLeastBelow, IsLeastWrong, IsRecordOf, IsRight, StandsIn};

use crate::clashes::are_apart;
use raft_voter::{Items, Outcome, Reply, Request, Round};
use raft_voter_rounds::{Opening, Receipt, Statement, are_asked};
use std::alloc::Global;

/// Receipts that are checked against the records that a journal keeps, the first of which is at a place.
#[derive(Drop)]
pub struct Check<'a, L: Opening> {
    first: usize,
    journal: &'a [Round],
    receipts: &'a [Receipt<L>],
    are_apart: bool,
    ghost apart: { are_apart ≡ true → NoneClashes first receipts.now },
}

impl<'a, L: Opening> Check<'a, L> {
    ghost use Rattle.std.specs.Prelude.{slice_get, Some};

    /// Returns a check of these receipts. First finds out quickly whether any may contradict another one.
    pub fn new(
        alloc: Global,
        first: usize,
        journal: &'a [Round],
        receipts: &'a [Receipt<L>],
    ) -> Check<'a, L>
        ensures first { result.first ≡ first }
        ensures journal { result.journal.now ≡ journal.now }
        ensures receipts { result.receipts.now ≡ receipts.now }
    {
        Check {
            first,
            journal,
            receipts,
            are_apart: are_apart(alloc, first, journal.len(), receipts),
        }
    }

    /// Returns the least place at which a receipt isn't right, or `None` if all are right. Looks at each receipt once, and
    /// compares it with the others only if some may contradict each other.
    pub fn least_wrong(&self) -> Option<usize>
        ensures none { result ≡ None → AllRight self.now.first self.now.journal.now self.now.receipts.now }
        ensures some { IfSome result (λ place. IsLeastWrong self.now.first self.now.journal.now self.now.receipts.now place) }
    {
        let mut least: Option<usize> = None;
        for index in 0..self.receipts.len() {
            let receipt = self.receipts[index].statement();
            least = self.lesser(index, receipt, least);
        }
        least
    }

    /// Returns the least place so far at which a receipt isn't right, after also checking the receipt at this index.
    fn lesser(&self, index: usize, receipt: &Statement, least: Option<usize>) -> Option<usize>
        requires { slice_get self.now.receipts.now index ≡ Some receipt.now }
        ensures { IsLeastBelow self.now.first self.now.journal.now self.now.receipts.now index least
            → IsLeastBelow self.now.first self.now.journal.now self.now.receipts.now (index + 1) result }
    {
        if self.is_right(index, receipt) {
            return least;
        }
        match least {
            Some(place) => Some(place.min(receipt.place)),
            None => Some(receipt.place),
        }
    }

    /// Whether the receipt at an index is right.
    fn is_right(&self, index: usize, receipt: &Statement) -> bool
        requires { slice_get self.now.receipts.now index ≡ Some receipt.now }
        ensures { Decides result (IsRight self.now.first self.now.journal.now self.now.receipts.now index receipt.now) }
    {
        stands_in(self.first, self.journal, receipt) && !self.clashes(index, receipt)
    }

    /// Whether another receipt contradicts the one at an index, whose record may be kept.
    fn clashes(&self, index: usize, receipt: &Statement) -> bool
        requires at { slice_get self.now.receipts.now index ≡ Some receipt.now }
        requires kept { self.now.first ≤ receipt.now.place }
        ensures { result ≡ clashes self.now.receipts.now index receipt.now }
    {
        if self.are_apart {
            return false;
        }
        clashes(self.receipts, index, receipt)
    }
}

/// Whether a receipt's record is at its place in the journal.
fn stands_in(first: usize, journal: &[Round], receipt: &Statement) -> bool
    ensures { Decides result (StandsIn first journal.now receipt.now) }
{
    if receipt.place < first {
        return false;
    }
    match journal.get(receipt.place - first) {
        Some(round) => is_record_of(receipt, round),
        None => false,
    }
}

/// Whether a record matches a receipt.
fn is_record_of(receipt: &Statement, round: &Round) -> bool
    ensures { Decides result (IsRecordOf receipt.now round.now) }
{
    match &round.outcome {
        Outcome::Answered(replies) => {
            are_asked(round.requests.as_slice(), receipt.requests.as_slice())
                && are_told(replies, &receipt.replies)
        }
        Outcome::Cut => false,
    }
}

/// Whether these are the same replies.
fn are_told(replies: &Items<Reply>, others: &Items<Reply>) -> bool
    ensures { Decides result (replies.now ≡ others.now) }
{
    replies == others
}

/// Whether another of these receipts contradicts the one at an index.
fn clashes<L: Opening>(receipts: &[Receipt<L>], index: usize, receipt: &Statement) -> bool
    ensures { result ≡ clashes receipts.now index receipt.now }
{
    receipts.iter().enumerate().any(|(other_index, other)| other_index != index
        && clash(receipt, other.statement()))
}

/// Whether the second receipt contradicts the first.
fn clash(receipt: &Statement, other: &Statement) -> bool
    ensures { result ≡ clash receipt.now other.now }
{
    other.place == receipt.place
        || (other.seat == receipt.seat && other.turn < receipt.turn && receipt.place <= other.place)
}
