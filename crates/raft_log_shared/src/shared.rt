//! An engine that threads share.
ghost use Rattle.std.specs.Prelude.{◌≡◌, ◌<◌, length, Err, None, IfErr, IfOk, IfSome};
ghost use Rattle.raft_log_engine_laws.specs.EngineState.{LogDirectories};
ghost use Rattle.raft_log_engine_core.specs.ModelCalls.{FetchesMessages, IsEngineLog, IsValueOf};
ghost use Rattle.raft_log_engine_core.specs.Reads.{shows_of};
ghost use Rattle.raft_log_record_base.specs.declared.errors.Error.TheVariants as errors;
ghost use Rattle.raft_log_world.specs.Model.{ModelLog};
ghost use Rattle.raft_log_world.specs.declared.event.Call.TheVariants.{Purge as PurgeCall};
ghost use Rattle.raft_log_world.specs.declared.event.Purge.TheVariants.{Expired};
ghost use Rattle.raft_log_shared.specs.Calls.{WasRead, WasServed, answer_of};
ghost use Rattle.raft_log_shared.specs.Names.{id_of};
ghost use Rattle.raft_log_shared.specs.Receipts.{AreIn, ComesBack, IsHome, IsStamped};

use crate::ask::Ask;
use crate::desk::Desk;
use crate::done::Done;
use crate::hall::Hall;
use crate::history::{FreshHistory, History, Named};
use crate::opening::{Asks, Opening};
use crate::receipt::Receipt;
use crate::work::Work;
use crate::written::Written;
use log::Log;
use raft_log_dual_pipes::PipeLog;
use raft_log_engine_core::LogEngine;
use raft_log_record_base::{Error, Result};
use raft_log_record_batches::LogBatch;
use raft_log_record_items::MessageExt;
use std::alloc::Global;
use std::sync::{Condvar, Mutex, Wait};
use std::thread;

/// An engine that is lent to threads by reference.
///
/// The engine is at a desk, under a lock that a caller holds while the engine works. Before that, callers hand in their
/// batches at a hall, whose lock nobody holds for long. If nobody leads, a caller does: it writes all batches that
/// wait, makes one sync if any caller waits for one, and wakes the callers. So writes that wait share a sync. A thread
/// that takes both locks takes that of the desk first.
#[derive(Drop)]
pub struct SharedEngine<P: PipeLog, L: Opening>
where
    Asks<L>: Named,
{
    history: History<L>,
    asks: History<Asks<L>>,
    hall: Mutex<Hall<L>>,
    moved: Condvar,
    desk: Mutex<Desk<P, L>>,
}

impl<P: PipeLog, L: Opening> SharedEngine<P, L> {
    /// Shares an engine. The opening must name both histories. The engine must have each log open that the opening
    /// names.
    pub fn new(
        alloc: Global,
        engine: LogEngine<P>,
        history: FreshHistory,
        asks: FreshHistory,
    ) -> SharedEngine<P, L>
        requires names { (id_of history ≡ L.history) × (id_of asks ≡ L.asks) }
        requires began { (home : LogDirectories) (log : ModelLog) → L.began home log
            → IsEngineLog home (shows_of P.shown engine) log }
    {
        let (history, keeper) = history.named::<L>();
        let (asks, asked) = asks.named::<Asks<L>>();
        SharedEngine {
            history,
            asks,
            hall: Mutex::new(Hall::new(alloc, asked)),
            moved: Condvar::new(),
            desk: Mutex::new(Desk::new(alloc, engine, keeper)),
        }
    }

    /// Writes a batch, and returns it with the length of its record in bytes. With `sync`, it returns only after a sync
    /// that came after the write. Batches of other callers may be written with it, and share the sync. The batch is
    /// emptied, and keeps at most 8 MiB of its buffer.
    ///
    /// If the write fails, the error is that of the engine's `write`. The batch is kept; after `Failed` it may have
    /// been emptied. If the sync fails, the engine has failed: each caller that waits for the sync gets `Failed`. A
    /// caller that didn't ask for a sync keeps its `Ok`: its batch was written, and a later open may find it.
    ///
    /// The receipt proves that the history has the records of the write and of the sync. There is none, and the error
    /// is `Memory`, if memory ran out before the engine was called; the batch is unchanged then.
    pub fn write<R: Wait + Log>(&self, rt: &R, batch: LogBatch, sync: bool) -> Written<L>
        ensures stamped { IfSome result.receipt (λ stamp. IsStamped batch sync result.result stamp) }
        ensures none { result.receipt ≡ None → (result.result ≡ Err errors.Memory) × (result.batch ≡ batch) }
        ensures home { ∥ IsHome batch result.batch result.result ∥₁ }
    {
        match self.put(rt, batch, sync) {
            Ok(ask) => self.answer(rt, ask),
            Err(batch) => Written {
                batch,
                result: Err(Error::Memory),
                receipt: None,
            },
        }
    }

    /// Waits until a request was served, by this caller or another that leads, and returns the answer.
    fn answer<R: Wait + Log>(&self, rt: &R, ask: Ask<L>) -> Written<L>
        ensures stamped { IfSome result.receipt (λ stamp. IsStamped ask.batch ask.sync result.result stamp) }
        ensures some { result.receipt ≡ None → ⊥ }
        ensures home { ∥ IsHome ask.batch result.batch result.result ∥₁ }
    {
        let Done {
            ask: mut theirs,
            batch,
            result,
            receipt,
        } = self.wait_for(rt, ask.number());
        self.compare(rt, ask, &mut theirs);
        Written {
            batch,
            result,
            receipt: Some(receipt),
        }
    }

    /// Compares two requests of one number: they are the same.
    fn compare<R: Wait>(&self, rt: &R, ask: Ask<L>, other: &mut Ask<L>)
        requires { other.old.number ≡ ask.number }
        ensures { other.old ≡ ask }
    {
        self.hall.lock(rt).compare(rt, &self.asks, ask, other);
    }

    /// Waits until the request with this number was served, and returns the answer.
    fn wait_for<R: Wait + Log>(&self, rt: &R, number: u64) -> Done<L>
        ensures { result.ask.number ≡ number }
    {
        for _ in rt.forever() {
            if let Some(done) = self.wait(rt, number) {
                return done;
            }
            if let Some(done) = self.lead(rt, number) {
                return done;
            }
        }
        unreachable!()
    }

    /// Hands in a batch. If memory runs out, the batch is returned.
    fn put<R: Wait>(&self, rt: &R, batch: LogBatch, sync: bool) -> Result<Ask<L>, LogBatch>
        ensures ok { IfOk result (λ ask. (ask.batch ≡ batch) × (ask.sync ≡ sync)) }
        ensures err { IfErr result (λ back. back ≡ batch) }
    {
        self.hall.lock(rt).put(rt, &self.asks, batch, sync)
    }

    /// Waits until the answer to the request with this number is in the hall, and returns it, or until nobody leads.
    /// Then this caller leads, and `None` is returned.
    fn wait<R: Wait>(&self, rt: &R, number: u64) -> Option<Done<L>>
        ensures { IfSome result (λ done. done.ask.number ≡ number) }
    {
        let mut hall = self
            .moved
            .wait_while(rt, self.hall.lock(rt), |hall| hall.must_wait(number));
        hall.fetch_or_lead(number)
    }

    /// Writes the batches that wait, hands the answers over to the hall, and leads no more. Returns the answer to the
    /// caller's own request if its batch was among them.
    ///
    /// If batches of several callers were written together last, these may be about to come back: others run first.
    fn lead<R: Wait + Log>(&self, rt: &R, number: u64) -> Option<Done<L>>
        ensures { IfSome result (λ done. done.ask.number ≡ number) }
    {
        let mut desk = self.desk.lock(rt);
        if desk.is_cleared() {
            if desk.served_several() {
                thread::yield_now();
            }
            if let Some(work) = self.next(rt) {
                desk.serve(rt, &self.history, work);
            }
        }
        let answer = desk.fetch(number);
        self.hand_over(rt, &mut desk);
        answer
    }

    /// Takes all batches that wait, or returns `None` if there are none.
    fn next<R: Wait>(&self, rt: &R) -> Option<Work<L>> {
        self.hall.lock(rt).next()
    }

    /// Hands the answers over to the hall, and wakes all that wait there. Nobody leads any more.
    fn hand_over<R: Wait>(&self, rt: &R, desk: &mut Desk<P, L>) {
        let mut hall = self.hall.lock(rt);
        desk.hand_over(&mut hall);
        drop(hall);
        self.moved.notify_all();
    }

    /// Purges the files while no batch is written, as the engine's `purge_expired_files` does. Returns the groups that
    /// the caller should compact. It is a call of the history; the log keeps its contents.
    pub fn purge_expired_files<R: Wait + Log>(&self, rt: &R) -> Result<Vec<u64>>
        ensures { WasServed L.began (PurgeCall Expired) (answer_of result) }
    {
        self.desk.lock(rt).purge_expired_files(rt, &self.history)
    }

    /// Returns a copy of the value of a group's key, if it has one, as the engine's `get` does. It is the value after
    /// some history, since no batch is written meanwhile.
    pub fn get<R: Wait>(&self, rt: &R, raft_group_id: u64, key: &[u8]) -> Result<Option<Vec<u8>>>
        ensures { IfOk result (WasRead L.began (IsValueOf raft_group_id key.now)) }
    {
        self.desk.lock(rt).get(raft_group_id, key)
    }

    /// Appends the entries of a group from `begin` on and below `end` to `vec`, as the engine's `fetch_entries_to`
    /// does. Returns how many they are.
    pub fn fetch_entries_to<M: MessageExt, R: Wait>(
        &self,
        rt: &R,
        raft_group_id: u64,
        begin: u64,
        end: u64,
        max_size: Option<usize>,
        vec: &mut Vec<M::Entry>,
    ) -> Result<usize>
        ensures { IfOk result (WasRead L.began (FetchesMessages M.Entry.reading raft_group_id begin end max_size
            vec.old.items vec.new.items)) }
    {
        self.desk
            .lock(rt)
            .fetch_entries_to::<M>(raft_group_id, begin, end, max_size, vec)
    }

    /// Compares receipts with the history of the engine, which has their records, while threads write.
    pub fn confirm<R: Wait>(&self, rt: &R, receipts: &mut [Receipt<L>])
        ensures same { receipts.new ≡ receipts.old }
        ensures found { AreIn L.began receipts.old }
    {
        self.desk.lock(rt).confirm(rt, &self.history, receipts);
    }

    /// Ends the sharing and returns the engine. By the history of its calls, each log that it had open when it was
    /// shared became a log that it has open now. The history has the records of these receipts.
    pub fn into_engine<R: Wait>(self, rt: &R, receipts: Vec<Receipt<L>>) -> LogEngine<P>
        ensures { ComesBack L.began (shows_of P.shown result) receipts.items }
    {
        let SharedEngine {
            history,
            asks: _asks,
            hall: _hall,
            moved: _moved,
            desk,
        } = self;
        desk.into_inner().close(rt, &history, receipts)
    }
}
