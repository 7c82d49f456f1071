//! What only one caller at a time works with.
ghost use Rattle.std.specs.Prelude.{◌≡◌, ◌<◌, ◌≤◌, [], false, true, is_some, length, sum_by, None};
ghost use Rattle.raft_voter.specs.Rounds.{World};
ghost use Rattle.raft_voter.specs.Service.{IsOpenAt};
ghost use Rattle.raft_voter_rounds.specs.Journal.{IsLegal, reached};
ghost use Rattle.raft_voter_shared.specs.Failing.{CameToFailAs};
ghost use Rattle.raft_voter_shared.specs.Standing.{is_last, standing};

mod upkeep;

use crate::failure::{Failure, failure_behind};
use crate::receipts::Check;
use crate::seat::{Seat, have_all, merged};
use crate::settled::{SettleCause, Settled};
use raft_voter::{Round, RoundFault, RoundService};
use raft_voter_history::{History, Keeper};
use raft_voter_rounds::{
    Done, Hall, Journal, MergedRound, Opening, Receipt, SharedFault, Taken, Ticket, fetch,
    hand_out, note_answers, note_cuts, refuse_all,
};
use std::alloc::Global;
use std::marker::PhantomData;
use std::sync::Wait;
use std::sync::ledger::Book;

/// The store, the journal of the rounds that it served, how it failed, and the ledger's book, which counts the records.
/// Also the answers that the hall hasn't taken over, how many rounds were served together last, and how often the store
/// was called.
///
/// For any voters that the store served when it was shared:
/// - The journal is a legal history of them.
/// - Unless the store failed, it serves the voters that the journal leads to.
/// - A crash leaves these voters. If the store failed in rounds that it served together, a crash leaves voters that
///   took these up to some place.
/// - If a failure is noted, a file call failed between two states of the store. The first served the voters that the
///   records before had led to.
#[derive(Drop)]
pub struct Desk<R, S: RoundService<R>, L: Opening> {
    alloc: Global,
    store: S,
    journal: Journal<L>,
    failure: Option<Failure>,
    book: Book<L>,
    done: Vec<Done<L>>,
    together: usize,
    calls: usize,
    runtime: PhantomData<R>,
    ghost counted: { length journal.history ≡ book.total },
    ghost fewer: { calls ≤ length journal.history },
    ghost legal: { (W : World) → L.served W → IsLegal W journal.history },
    ghost serves: { (W : World) → L.served W → S.service.is_failed store ≡ false
        → ∥ IsOpenAt S.service store (reached W journal.history) ∥₁ },
    ghost left: { (W : World) → L.served W
        → ∥ S.service.leaves store (standing W journal.history failure) ∥₁ },
    ghost alive: { S.service.is_failed store ≡ false → failure ≡ None },
    ghost last: { is_last failure journal.history ≡ true },
    ghost cause: { S.service.is_failed store ≡ true → L.had_failed ≡ false → is_some failure ≡ true },
    ghost why: { (W : World) → L.served W
        → CameToFailAs S.service failure (standing W journal.history failure) store },
}

impl<R, S: RoundService<R>, L: Opening> Desk<R, S, L> {
    ghost use Rattle.std.specs.Prelude.{◌==◌, ◌-◌, ◌++◌, nat_lt, map, IfErr, IfSome, OnOk};
    ghost use Rattle.std.specs.List.{All};
    ghost use Rattle.raft_voter_rounds.specs.Noting.{GivesNoReplies, NotesAnswered};
    ghost use Rattle.raft_voter_rounds.specs.Proving.{IsAt};
    ghost use Rattle.raft_voter_rounds.specs.Taking.{TakesKept};
    ghost use Rattle.raft_voter_shared.specs.Settling.{IsSettled, SettlesUnless};

    /// Returns a desk with an empty journal, which keeps its records in memory or not.
    pub fn new(
        alloc: Global,
        store: S,
        book: Book<L>,
        history: Keeper<L>,
        keeps: bool,
    ) -> Desk<R, S, L>
        requires empty { history ≡ [] }
        requires served { (W : World) → L.served W → ∥ IsOpenAt S.service store W ∥₁ }
        requires failed { L.had_failed ≡ S.service.is_failed store }
        requires unused { book.total ≡ 0 }
        ensures store { result.store ≡ store }
        ensures journal { result.journal.history ≡ [] }
    {
        Desk {
            alloc,
            store,
            journal: Journal::new(alloc, history, keeps),
            failure: None,
            book,
            done: Vec::new(alloc),
            together: 0,
            calls: 0,
            runtime: PhantomData,
        }
    }

    /// Returns the records that the journal keeps.
    pub fn kept(&self) -> &[Round]
        ensures { result.now ≡ self.now.journal.kept.items }
    {
        self.journal.kept()
    }

    /// Returns the claim that no records were taken from the journal yet.
    pub fn none_taken(&mut self, history: &History<L>) -> Taken<L>
        ensures taken { result ≡ [] }
        ensures same { (self.new.store ≡ self.old.store) × (self.new.journal.history ≡ self.old.journal.history) }
    {
        self.journal.none_taken(history)
    }

    /// Whether the hall has taken over all answers.
    pub fn is_cleared(&self) -> bool
        ensures { result ≡ (length self.now.done.items == 0) }
    {
        self.done.is_empty()
    }

    /// Whether rounds of several callers were served together last.
    pub fn served_several(&self) -> bool
        ensures { result ≡ nat_lt 1 self.now.together }
    {
        1 < self.together
    }

    /// The store serves a merged round, with one sync. A record of each of its rounds is appended to the journal, with
    /// the replies that its caller gets, or as cut off. Each caller's answer has the place of its own record and its
    /// own replies. If a read can't be copied for lack of memory, its reply is `Refused`.
    ///
    /// Fails with `Cut` and the place of the first record if the rounds were cut off. Fails with `Memory` if there is
    /// no memory for the records; then nothing was taken, and each caller's answer is `Memory`.
    pub fn serve(
        &mut self,
        rt: &R,
        history: &History<L>,
        merged: MergedRound<L>,
    ) -> Result<(), SharedFault>
    where
        R: Wait,
        requires some { 0 < length merged.parts.items }
        requires cleared { length self.old.done.items ≡ 0 }
        ensures ok { OnOk result (NotesAnswered S.service (map (λ part. part.ticket.count) merged.parts.items)
            merged.asked.items self.old.store self.old.journal.history self.new.store self.new.journal.history
            (map (λ done. done.answer) self.new.done.items)) }
        ensures err { IfErr result (λ fault. GivesNoReplies S.service fault
            (map (λ part. part.ticket.count) merged.parts.items) merged.asked.items
            self.old.store self.old.journal.history self.new.store self.new.journal.history
            (map (λ done. done.answer) self.new.done.items)) }
        ensures whose { map (λ done. done.ticket) self.new.done.items
            ≡ map (λ part. part.ticket) merged.parts.items }
    {
        let Desk {
            alloc,
            store,
            journal,
            failure,
            book,
            done: answers,
            together,
            calls,
            runtime: _,
        } = self;
        let MergedRound {
            asked,
            parts,
            noted,
            handed,
            done,
        } = merged;
        *together = parts.len();
        let Ok(()) = journal.reserve(parts.len()) else {
            *answers = refuse_all(parts, done);
            return Err(SharedFault::Memory);
        };
        *calls += 1;
        let first = journal.len();
        match store.serve(rt, asked.as_slice()) {
            Ok(replies) => {
                let mut told = replies.into_vec();
                told.truncate(asked.len());
                let (noted, handed) = hand_out(*alloc, told, noted, handed);
                *answers = note_answers(
                    rt, history, journal, book, parts, asked, noted, handed, done,
                );
                Ok(())
            }
            Err(fault) => {
                let RoundFault { refused, cause } = fault;
                *answers = note_cuts(
                    rt,
                    history,
                    journal,
                    book,
                    cause,
                    parts,
                    asked,
                    refused.as_slice(),
                    done,
                );
                *failure = failure_behind(cause, first, journal.len(), *failure);
                Err(SharedFault::Cut {
                    place: first,
                    cause,
                })
            }
        }
    }

    /// Removes the answer to this round from those that the hall hasn't taken over, and returns it.
    pub fn fetch(&mut self, ticket: Ticket) -> Option<Done<L>>
        ensures answer { IfSome result (λ done. done.ticket ≡ ticket) }
        ensures same { (self.new.store ≡ self.old.store) × (self.new.journal ≡ self.old.journal) }
    {
        fetch(&mut self.done, ticket)
    }

    /// Moves the answers into the hall, or keeps them if there is no memory there. Afterwards nobody leads.
    pub fn hand_over(&mut self, hall: &mut Hall<L>)
        ensures answers { hall.new.done.items ++ self.new.done.items ≡ hall.old.done.items ++ self.old.done.items }
        ensures same { (self.new.store ≡ self.old.store) × (self.new.journal ≡ self.old.journal) }
    {
        hall.take_over(&mut self.done);
    }

    /// Compares receipts with the history, which has the record of each at its place.
    pub fn confirm(&mut self, rt: &R, history: &History<L>, receipts: &mut [Receipt<L>])
    where
        R: Wait,
        ensures receipts { receipts.new ≡ receipts.old }
        ensures same { (self.new.store ≡ self.old.store) × (self.new.journal.history ≡ self.old.journal.history) }
        ensures found { All (λ r. IsAt self.old.journal.history r) receipts.old }
        ensures legal { (W : World) → L.served W → IsLegal W self.old.journal.history }
    {
        self.journal.confirm(rt, history, receipts);
    }

    /// Removes the records that the journal keeps and returns them, if they follow those that were taken before: then
    /// all records were taken. Otherwise nothing changes and none are returned.
    pub fn take(&mut self, rt: &R, history: &History<L>, taken: &mut Taken<L>) -> Vec<Round>
    where
        R: Wait,
        ensures taken { taken.new ≡ taken.old ++ result.items }
        ensures same { (self.new.store ≡ self.old.store) × (self.new.journal.history ≡ self.old.journal.history) }
        ensures all { TakesKept self.old.journal.history self.old.journal.kept.items self.new.journal.kept.items
            taken.old taken.new }
        ensures legal { (W : World) → L.served W → IsLegal W self.old.journal.history }
    {
        self.journal.take(rt, history, taken)
    }

    /// Returns why these seats and receipts can't settle the store, which has a ledger of this many parts, or `None` if
    /// they can. The seats are checked first. Receipts are checked against the records that the journal keeps.
    pub fn fault(
        &self,
        parts: u64,
        seats: &[Seat<L>],
        receipts: &[Receipt<L>],
    ) -> Option<SettleCause>
        requires { parts ≡ L.all }
        ensures { SettlesUnless (length self.now.journal.history - length self.now.journal.kept.items)
            self.now.journal.kept.items L.all (sum_by (λ seat. seat.parts) seats.now) receipts.now result }
    {
        if !have_all(seats, parts) {
            return Some(SettleCause::SeatCount);
        }
        let first = self.journal.first();
        let check = Check::new(self.alloc, first, self.journal.kept(), receipts);
        match check.least_wrong() {
            Some(place) => Some(SettleCause::Receipt(place)),
            None => None,
        }
    }

    /// Returns the store and the records that the journal keeps. All seats must be there; the history has as many
    /// records as they count, and begins with those that were taken.
    pub fn close(
        self,
        rt: &R,
        history: &History<L>,
        taken: Taken<L>,
        seats: Vec<Seat<L>>,
    ) -> Settled<S>
    where
        R: Wait,
        requires all { sum_by (λ seat. seat.parts) seats.items ≡ L.parts }
        requires some { 0 < L.parts }
        ensures settled { IsSettled S.service L.served L.had_failed (sum_by (λ seat. seat.turn) seats.items) taken
            result.store result.first result.journal.items result.failure result.calls }
        ensures kept { result.journal.items ≡ self.journal.kept.items }
        ensures first { result.first ≡ length self.journal.history - length self.journal.kept.items }
    {
        let Desk {
            alloc: _,
            store,
            journal,
            failure,
            mut book,
            done: _done,
            together: _,
            calls,
            runtime: _,
        } = self;
        count_all(&mut book, seats);
        let (first, journal) = journal.close(rt, history, taken);
        Settled {
            store,
            first,
            journal,
            failure,
            calls,
        }
    }
}

/// Compares the book with the shares of all seats: they count as many records.
fn count_all<L: Opening>(book: &mut Book<L>, seats: Vec<Seat<L>>)
    requires all { sum_by (λ seat. seat.parts) seats.items ≡ L.parts }
    requires some { 0 < L.parts }
    ensures { book.old.total ≡ sum_by (λ seat. seat.turn) seats.items }
{
    if let Some(mut whole) = merged(seats) {
        book.audit(&mut whole);
    }
}
