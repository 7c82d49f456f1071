//! A store that threads share.
ghost use Rattle.std.specs.Prelude.{◌≡◌, ◌<◌, length, IfErr, IfOk, IfSome};
ghost use Rattle.raft_voter.specs.Rounds.{World};
ghost use Rattle.raft_voter.specs.Service.{IsOpenAt};

mod upkeep;

use crate::desk::Desk;
use crate::seat::Seat;
use crate::settled::{SettleFault, Settled};
use crate::unsettled::Unsettled;
use raft_voter::{Items, Memory, Request, Round, RoundService};
use raft_voter_history::{FreshHistory, History};
use raft_voter_rounds::{
    Done, Draft, Hall, Job, MergedRound, Opening, Receipt, SharedFault, Taken, Ticket,
    copy_requests,
};
use std::alloc::Global;
use std::sync::ledger::Blank;
use std::sync::{Condvar, Mutex, Wait};
use std::thread;

/// A store of voters that is lent to threads by reference. Each thread has a seat of its own.
///
/// The store and its journal are at a desk, under a lock that a caller holds while the store works. Before that, callers
/// put their rounds into a hall, whose lock nobody holds for long. If nobody leads, a caller does: it has the store serve
/// rounds that wait, merged into one, and then wakes their callers. So rounds that wait share a sync. A thread that
/// takes both locks takes that of the desk first.
#[derive(Drop)]
pub struct SharedStore<R, S: RoundService<R>, L: Opening> {
    pub(crate) alloc: Global,
    pub(crate) history: History<L>,
    pub(crate) hall: Mutex<Hall<L>>,
    pub(crate) moved: Condvar,
    pub(crate) desk: Mutex<Desk<R, S, L>>,
    pub(crate) parts: u64,
    ghost all: { parts ≡ L.all },
    ghost some: { 0 < parts },
}

impl<R, S: RoundService<R>, L: Opening> SharedStore<R, S, L> {
    ghost use Rattle.std.specs.Prelude.{◌+◌, ◌-◌, ◌≤◌, ◌++◌, [], sum_by, OnOk};
    ghost use Rattle.raft_voter_history.specs.Names.{id_of};
    ghost use Rattle.raft_voter_rounds.specs.Noting.{records_of, ToldOfLength};
    ghost use Rattle.raft_voter_rounds.specs.Proving.{AreInHistory};
    ghost use Rattle.raft_voter_shared.specs.Receipts.{AllRight};
    ghost use Rattle.raft_voter_shared.specs.Settling.{AreTaken, IsCause, IsSettled};

    /// Shares a store, and returns the first seat, which has all parts of the ledger; there must be at least one. The
    /// store must serve the voters that the opening names. No records are kept in memory: the history of the rounds
    /// exists in proofs alone.
    pub fn new(
        alloc: Global,
        store: S,
        blank: Blank,
        fresh: FreshHistory,
        parts: u64,
    ) -> (SharedStore<R, S, L>, Seat<L>)
        requires name { (blank.name ≡ L.name) × (id_of fresh ≡ L.history) }
        requires parts { (blank.parts ≡ parts) × (L.parts ≡ parts) × (L.all ≡ parts) }
        requires some { 0 < parts }
        requires served { (W : World) → L.served W → ∥ IsOpenAt S.service store W ∥₁ }
        requires failed { L.had_failed ≡ S.service.is_failed store }
        ensures parts { result.1.parts ≡ parts }
        ensures number { result.1.number ≡ 0 }
        ensures turn { result.1.turn ≡ 0 }
    {
        SharedStore::opened(alloc, store, blank, fresh, parts, false)
    }

    /// Shares a store as `new` does, with a journal: each record is kept in memory until `take_journal` removes it.
    pub fn with_journal(
        alloc: Global,
        store: S,
        blank: Blank,
        fresh: FreshHistory,
        parts: u64,
    ) -> (SharedStore<R, S, L>, Seat<L>)
        requires name { (blank.name ≡ L.name) × (id_of fresh ≡ L.history) }
        requires parts { (blank.parts ≡ parts) × (L.parts ≡ parts) × (L.all ≡ parts) }
        requires some { 0 < parts }
        requires served { (W : World) → L.served W → ∥ IsOpenAt S.service store W ∥₁ }
        requires failed { L.had_failed ≡ S.service.is_failed store }
        ensures parts { result.1.parts ≡ parts }
        ensures number { result.1.number ≡ 0 }
        ensures turn { result.1.turn ≡ 0 }
    {
        SharedStore::opened(alloc, store, blank, fresh, parts, true)
    }

    /// Shares a store whose journal keeps its records in memory or not.
    fn opened(
        alloc: Global,
        store: S,
        blank: Blank,
        fresh: FreshHistory,
        parts: u64,
        keeps: bool,
    ) -> (SharedStore<R, S, L>, Seat<L>)
        requires name { (blank.name ≡ L.name) × (id_of fresh ≡ L.history) }
        requires parts { (blank.parts ≡ parts) × (L.parts ≡ parts) × (L.all ≡ parts) }
        requires some { 0 < parts }
        requires served { (W : World) → L.served W → ∥ IsOpenAt S.service store W ∥₁ }
        requires failed { L.had_failed ≡ S.service.is_failed store }
        ensures parts { result.1.parts ≡ parts }
        ensures number { result.1.number ≡ 0 }
        ensures turn { result.1.turn ≡ 0 }
    {
        let (book, share) = blank.open::<L>();
        let (history, keeper) = fresh.named::<L>();
        let shared = SharedStore {
            alloc,
            history,
            hall: Mutex::new(Hall::new(alloc)),
            moved: Condvar::new(),
            desk: Mutex::new(Desk::new(alloc, store, book, keeper, keeps)),
            parts,
        };
        (shared, Seat::first(share, parts))
    }

    /// Serves a round of a seat. The store may serve rounds of other seats with it, with one sync, as one round of at
    /// most 4,096 requests. The store gets a longer round alone, and cuts it off as `TooLong`. The round has a record
    /// of its own in the journal, and the receipt has its place there. The seat counts the record.
    ///
    /// Fails with `Cut` if the round was cut off, which is recorded; then each round that was served with it was, too.
    /// Fails with `Memory` if there is no memory for the receipt, the queue, or the records of the rounds to serve with
    /// it. Then nothing was taken, and nothing is recorded. If a read can't be copied for lack of memory, its reply is
    /// `Refused`.
    pub fn serve(
        &self,
        rt: &R,
        seat: &mut Seat<L>,
        requests: &[(u64, Request)],
    ) -> Result<Receipt<L>, SharedFault>
    where
        R: Wait,
        ensures seat { IfOk result (λ receipt. receipt.seat ≡ seat.old.number) }
        ensures turn { IfOk result (λ receipt. receipt.turn ≡ seat.old.turn) }
        ensures requests { IfOk result (λ receipt. receipt.requests ≡ requests.now) }

        // Unless memory ran out, the fault is `TooLong` exactly if the round is too long.
        ensures short { OnOk result (length requests.now ≤ 4096) }
        ensures long { IfErr result (λ fault. ToldOfLength fault (length requests.now)) }

        // The seat counts each record.
        ensures counts { OnOk result (seat.new.turn ≡ seat.old.turn + 1) }
        ensures faults { IfErr result (λ fault. seat.new.turn ≡ seat.old.turn + records_of fault) }
        ensures same { (seat.new.number ≡ seat.old.number) × (seat.new.parts ≡ seat.old.parts) }
    {
        let Ok((asked, draft)) = drafted(self.alloc, requests) else {
            return Err(SharedFault::Memory);
        };
        let Seat {
            share,
            number,
            parts,
            turn,
        } = seat;
        let ticket = Ticket {
            number: *number,
            parts: *parts,
            turn: *turn,
            count: requests.len(),
        };
        let job = Job {
            ticket,
            share: share.split_off(*parts, *turn),
            requests: asked,
            draft,
        };
        let (answer, back, after) = self.answer(rt, job, requests).into_receipt();
        share.merge(back);
        *turn = after;
        answer
    }

    /// Waits until a round of these requests was served, by this caller or another that leads, and returns the answer. The
    /// answer is `Memory` if there is no memory to put it into the queue.
    ///
    /// No other round of the store has the same ticket, so the answer is to these requests. Only the comparison proves it.
    fn answer(&self, rt: &R, job: Job<L>, requests: &[(u64, Request)]) -> Done<L>
    where
        R: Wait,
        ensures ticket { result.ticket ≡ job.ticket }
        ensures requests { OnOk result.answer (result.requests ≡ requests.now) }
    {
        let ticket = job.ticket;
        if let Err(job) = self.put(rt, job) {
            return job.refused();
        }
        for _ in rt.forever() {
            let Some(done) = self.wait_or_lead(rt, ticket) else {
                continue;
            };
            if done.is_to(requests) {
                return done;
            }
        }
        unreachable!()
    }

    /// Waits until the answer to this round is there, and returns it. If nobody leads, this caller leads once, and returns
    /// the answer if its round was served.
    fn wait_or_lead(&self, rt: &R, ticket: Ticket) -> Option<Done<L>>
    where
        R: Wait,
        ensures { IfSome result (λ done. done.ticket ≡ ticket) }
    {
        if let Some(done) = self.wait(rt, ticket) {
            return Some(done);
        }
        self.lead(rt, ticket)
    }

    /// Puts a round into the queue. If memory runs out, the round is returned.
    fn put(&self, rt: &R, job: Job<L>) -> Result<(), Job<L>>
    where
        R: Wait,
        ensures { IfErr result (λ back. back.ticket ≡ job.ticket) }
    {
        self.hall.lock(rt).put(job)
    }

    /// Waits until the answer to this round is in the hall, and returns it, or until nobody leads. Then this caller leads,
    /// and `None` is returned.
    fn wait(&self, rt: &R, ticket: Ticket) -> Option<Done<L>>
    where
        R: Wait,
        ensures { IfSome result (λ done. done.ticket ≡ ticket) }
    {
        let mut hall = self
            .moved
            .wait_while(rt, self.hall.lock(rt), |hall| hall.must_wait(ticket));
        hall.fetch_or_lead(ticket)
    }

    /// Has the store serve the next merged round, hands the answers over to the hall, and leads no more. Returns the answer
    /// to the caller's round if that was in it.
    ///
    /// If rounds of several callers were served together last, these may be about to come back: others run first.
    fn lead(&self, rt: &R, ticket: Ticket) -> Option<Done<L>>
    where
        R: Wait,
        ensures { IfSome result (λ done. done.ticket ≡ ticket) }
    {
        let mut desk = self.desk.lock(rt);
        if desk.is_cleared() {
            if desk.served_several() {
                thread::yield_now();
            }
            if let Some(merged) = self.next(rt) {
                let _outcome = desk.serve(rt, &self.history, merged);
            }
        }
        let answer = desk.fetch(ticket);
        self.hand_over(rt, &mut desk);
        answer
    }

    /// Removes the merged round that waited longest from the queue and returns it, if there is one with rounds.
    fn next(&self, rt: &R) -> Option<MergedRound<L>>
    where
        R: Wait,
        ensures { IfSome result (λ merged. 0 < length merged.parts.items) }
    {
        let merged = self.hall.lock(rt).next()?;
        if merged.is_empty() {
            return None;
        }
        Some(merged)
    }

    /// Hands the answers over to the hall, and wakes all that wait there. Nobody leads any more.
    fn hand_over(&self, rt: &R, desk: &mut Desk<R, S, L>)
    where
        R: Wait,
    {
        let mut hall = self.hall.lock(rt);
        desk.hand_over(&mut hall);
        drop(hall);
        self.moved.notify_all();
    }

    /// Compares receipts with the history, which has the record of each at its place. The history is legal, so the replies
    /// are those of the voters after the rounds before. Two receipts of one place have the same requests and replies.
    pub fn confirm(&self, rt: &R, receipts: &mut [Receipt<L>])
    where
        R: Wait,
        ensures same { receipts.new ≡ receipts.old }
        ensures found { AreInHistory L.served receipts.old }
    {
        self.desk.lock(rt).confirm(rt, &self.history, receipts);
    }

    /// Returns what `take_journal` begins with: no records were taken yet.
    pub fn none_taken(&self, rt: &R) -> Taken<L>
    where
        R: Wait,
        ensures { result ≡ [] }
    {
        self.desk.lock(rt).none_taken(&self.history)
    }

    /// Removes the records that the journal keeps and returns them, while threads serve. They are added to `taken`,
    /// which then has all records of the history. If `taken` lacks records that the journal no longer keeps, nothing is
    /// removed, and none are returned.
    pub fn take_journal(&self, rt: &R, taken: &mut Taken<L>) -> Vec<Round>
    where
        R: Wait,
        ensures taken { taken.new ≡ taken.old ++ result.items }
        ensures all { AreTaken L.served taken.old taken.new }
    {
        self.desk.lock(rt).take(rt, &self.history, taken)
    }

    /// Returns the store and the records that its journal kept, given all seats. There is a history of all its rounds,
    /// which begins with the records that were taken from the journal. For any voters that the store served when it was
    /// shared, it is a legal history of them. It has as many records as the seats counted. Each receipt's record was kept
    /// at its own place.
    ///
    /// Fails with `SeatCount` if the seats lack parts of the ledger. Otherwise it fails with `Receipt` for the least
    /// place of a receipt that is wrong for the records that were kept. The error returns all that the caller passed.
    pub fn settle(
        self,
        rt: &R,
        seats: Vec<Seat<L>>,
        receipts: Vec<Receipt<L>>,
        taken: Taken<L>,
    ) -> Result<Settled<S>, SettleFault<R, S, L>>
    where
        R: Wait,
        requires { L.all ≡ L.parts }
        ensures ok { IfOk result (λ settled. IsSettled S.service L.served L.had_failed
            (sum_by (λ seat. seat.turn) seats.items) taken settled.store settled.first settled.journal.items
            settled.failure settled.calls) }
        ensures receipts { IfOk result (λ settled. AllRight settled.first settled.journal.items receipts.items) }
        ensures err { IfErr result (λ fault. (fault.seats ≡ seats) × (fault.receipts ≡ receipts) × (fault.taken ≡ taken)) }
        ensures errors { IfErr result (λ fault. IsCause
            (length fault.store.desk.journal.history - length fault.store.desk.journal.kept.items)
            fault.store.desk.journal.kept.items L.all (sum_by (λ seat. seat.parts) seats.items) receipts.items
            fault.cause) }
    {
        let SharedStore {
            alloc,
            history,
            hall,
            moved,
            desk,
            parts,
        } = self;
        let desk = desk.into_inner();
        match desk.fault(parts, seats.as_slice(), receipts.as_slice()) {
            Some(cause) => Err(SettleFault {
                cause,
                store: Unsettled {
                    alloc,
                    history,
                    hall,
                    moved,
                    desk,
                    parts,
                },
                taken,
                seats,
                receipts,
            }),
            None => Ok(desk.close(rt, &history, taken, seats)),
        }
    }
}

/// Returns the requests for the receipt of a round, and a draft of its record.
fn drafted(
    alloc: Global,
    requests: &[(u64, Request)],
) -> Result<(Items<(u64, Request)>, Draft), Memory>
    ensures asked { IfOk result (λ drafted. drafted.0 ≡ requests.now) }
    ensures requests { IfOk result (λ drafted. drafted.1.requests.items ≡ requests.now) }
    ensures count { IfOk result (λ drafted. drafted.1.count ≡ length requests.now) }
{
    let asked = copy_requests(alloc, requests)?;
    Ok((asked, Draft::new(alloc, requests)?))
}
