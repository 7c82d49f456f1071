//! What only one caller at a time works with.
ghost use Rattle.std.specs.Prelude.{◌≡◌, ◌<◌, ◌≤◌, ◌⊎◌, ◌==◌, ◌++◌, ◌∷◌, [], false, length, map, nat_lt, vec_capacity, IfOk, IfSome};
ghost use Rattle.std.specs.List.{All, list_any};
ghost use Rattle.raft_log_engine_laws.specs.EngineState.{LogDirectories};
ghost use Rattle.raft_log_engine_core.specs.ModelCalls.{FetchesMessages, IsEngineLog, IsValueOf};
ghost use Rattle.raft_log_engine_core.specs.Reads.{shows_of};
ghost use Rattle.raft_log_world.specs.Model.{ModelLog};
ghost use Rattle.raft_log_world.specs.declared.event.Answer.{Answer};
ghost use Rattle.raft_log_world.specs.declared.event.Call.TheVariants.{Purge as PurgeCall, Write};
ghost use Rattle.raft_log_world.specs.declared.event.Purge.TheVariants.{Expired};
ghost use Rattle.raft_log_shared.specs.Calls.{WasRead, WasServed, answer_of, synced, wrote};
ghost use Rattle.raft_log_shared.specs.Receipts.{AreIn, ComesBack, waits};
ghost use Rattle.raft_log_shared.specs.Requests.{AreServed};

use crate::done::{Done, fetch};
use crate::hall::Hall;
use crate::history::History;
use crate::job::{Job, Part, Synced};
use crate::keeper::Keeper;
use crate::noted_engine::NotedEngine;
use crate::opening::Opening;
use crate::receipt::{Receipt, find_all};
use crate::work::Work;
use log::Log;
use raft_log_dual_pipes::PipeLog;
use raft_log_engine_core::LogEngine;
use raft_log_record_base::Result;
use raft_log_record_items::MessageExt;
use std::alloc::Global;
use std::collections::VecDeque;
use std::sync::Wait;

/// The engine with its history. Also the answers that the hall hasn't taken over, and how many batches were written
/// together last.
#[derive(Drop)]
pub struct Desk<P: PipeLog, L: Opening> {
    engine: NotedEngine<P, L>,
    done: Vec<Done<L>>,
    together: usize,
}

impl<P: PipeLog, L: Opening> Desk<P, L> {
    /// Returns a desk with an empty history.
    pub fn new(alloc: Global, engine: LogEngine<P>, keeper: Keeper<L>) -> Desk<P, L>
        requires empty { keeper ≡ [] }
        requires began { (home : LogDirectories) (log : ModelLog) → L.began home log
            → IsEngineLog home (shows_of P.shown engine) log }
    {
        Desk {
            engine: NotedEngine::new(engine, keeper),
            done: Vec::new(alloc),
            together: 0,
        }
    }

    /// Whether the hall has taken over all answers.
    pub fn is_cleared(&self) -> bool
        ensures { result ≡ (length self.now.done.items == 0) }
    {
        self.done.is_empty()
    }

    /// Whether several batches were written together last.
    pub fn served_several(&self) -> bool
        ensures { result ≡ nat_lt 1 self.now.together }
    {
        1 < self.together
    }

    /// Writes these batches, one after another and without a sync. Then makes one sync, if a caller waits for one. Each
    /// caller's answer is that to its own request.
    pub fn serve<R: Wait + Log>(&mut self, rt: &R, history: &History<L>, work: Work<L>)
        requires cleared { length self.old.done.items ≡ 0 }
        ensures whose { map (λ done. done.ask) self.new.done.items ≡ map (λ job. job.ask) work.jobs.items }
        ensures calls { AreServed (map (λ job. job.ask) work.jobs.items)
            (map (λ s. s.call) self.old.engine.keeper) (map (λ s. s.call) self.new.engine.keeper) }
    {
        let Work { jobs, parts, done } = work;
        let Desk {
            engine,
            done: answers,
            together,
        } = self;
        *together = jobs.len();
        let parts = write_all(rt, history, engine, jobs, parts);
        *answers = answer_all(rt, history, engine, parts, done);
    }

    /// Removes the answer to the request with this number from those that the hall hasn't taken over, and returns it.
    pub fn fetch(&mut self, number: u64) -> Option<Done<L>>
        ensures answer { IfSome result (λ done. done.ask.number ≡ number) }
        ensures same { self.new.engine ≡ self.old.engine }
    {
        fetch(&mut self.done, number)
    }

    /// Moves the answers into the hall, or keeps them if there is no memory there. Afterwards nobody leads.
    pub fn hand_over(&mut self, hall: &mut Hall<L>)
        ensures answers { hall.new.done.items ++ self.new.done.items ≡ hall.old.done.items ++ self.old.done.items }
        ensures same { self.new.engine ≡ self.old.engine }
    {
        hall.take_over(&mut self.done);
    }

    /// Purges the files, as the engine's `purge_expired_files` does.
    pub fn purge_expired_files<R: Wait + Log>(
        &mut self,
        rt: &R,
        history: &History<L>,
    ) -> Result<Vec<u64>>
        ensures { WasServed L.began (PurgeCall Expired) (answer_of result) }
    {
        self.engine.purge_expired_files(rt, history)
    }

    /// Returns a copy of the value of a group's key, as the engine's `get` does.
    pub fn get(&self, raft_group_id: u64, key: &[u8]) -> Result<Option<Vec<u8>>>
        ensures { IfOk result (WasRead L.began (IsValueOf raft_group_id key.now)) }
    {
        self.engine.get(raft_group_id, key)
    }

    /// Appends entries of a group to `vec`, as the engine's `fetch_entries_to` does.
    pub fn fetch_entries_to<M: MessageExt>(
        &mut self,
        raft_group_id: u64,
        begin: u64,
        end: u64,
        max_size: Option<usize>,
        vec: &mut Vec<M::Entry>,
    ) -> Result<usize>
        ensures { IfOk result (WasRead L.began (FetchesMessages M.Entry.reading raft_group_id begin end max_size
            vec.old.items vec.new.items)) }
    {
        self.engine
            .fetch_entries_to::<M>(raft_group_id, begin, end, max_size, vec)
    }

    /// Compares receipts with the history of the engine, which has them.
    pub fn confirm<R: Wait>(&mut self, rt: &R, history: &History<L>, receipts: &mut [Receipt<L>])
        ensures same { receipts.new ≡ receipts.old }
        ensures found { AreIn L.began receipts.old }
    {
        self.engine.confirm(rt, history, receipts);
    }

    /// Returns the engine, and compares these receipts with its history, which has them.
    pub fn close<R: Wait>(
        self,
        rt: &R,
        history: &History<L>,
        receipts: Vec<Receipt<L>>,
    ) -> LogEngine<P>
        ensures { ComesBack L.began (shows_of P.shown result) receipts.items }
    {
        let Desk {
            engine,
            done: _done,
            together: _,
        } = self;
        let (engine, mut keeper) = engine.split();
        let mut receipts = receipts;
        find_all(rt, history, &mut keeper, receipts.as_mut_slice());
        engine
    }
}

/// Writes these batches, one after another and without a sync. There must be room for what becomes of them.
fn write_all<P: PipeLog, L: Opening, R: Wait + Log>(
    rt: &R,
    history: &History<L>,
    engine: &mut NotedEngine<P, L>,
    jobs: Vec<Job<L>>,
    room: Vec<Part<L>>,
) -> Vec<Part<L>>
    requires room { (room.items ≡ []) × (length jobs.items ≤ vec_capacity room) }
    ensures whose { map (λ part. part.ask) result.items ≡ map (λ job. job.ask) jobs.items }
    ensures len { length result.items ≡ length jobs.items }
    ensures before { All (λ part. part.claim.0 < length engine.new.keeper) result.items }
    ensures calls { map (λ s. s.call) engine.new.keeper
        ≡ map (λ s. s.call) engine.old.keeper ++ map (λ job. Write job.ask.batch false) jobs.items }
{
    let mut parts = room;
    let mut jobs = VecDeque::from_vec(jobs);
    while let Some(job) = jobs.pop_front() {
        parts.push_reserved(write_job(rt, history, engine, job));
    }
    parts
}

/// Writes a batch without a sync.
fn write_job<P: PipeLog, L: Opening, R: Wait + Log>(
    rt: &R,
    history: &History<L>,
    engine: &mut NotedEngine<P, L>,
    job: Job<L>,
) -> Part<L>
    ensures ask { result.ask ≡ job.ask }
    ensures at { result.claim.0 ≡ length engine.old.keeper }
    ensures noted { engine.new.keeper
        ≡ engine.old.keeper ++ wrote job.ask.batch (answer_of result.result) ∷ [] }
{
    let Job {
        ask,
        mut batch,
        sync,
    } = job;
    let (result, claim) = engine.write(rt, history, &mut batch);
    Part {
        ask,
        batch,
        sync,
        result,
        claim,
    }
}

/// Makes one sync, if a caller waits for one, and returns the answers to all callers. There must be room for them.
fn answer_all<P: PipeLog, L: Opening, R: Wait + Log>(
    rt: &R,
    history: &History<L>,
    engine: &mut NotedEngine<P, L>,
    parts: Vec<Part<L>>,
    room: Vec<Done<L>>,
) -> Vec<Done<L>>
    requires room { (room.items ≡ []) × (length parts.items ≤ vec_capacity room) }
    requires before { All (λ part. part.claim.0 < length engine.old.keeper) parts.items }
    ensures whose { map (λ done. done.ask) result.items ≡ map (λ part. part.ask) parts.items }
    ensures syncs { (engine.new.keeper ≡ engine.old.keeper)
        ⊎ ((answer : Answer) × (engine.new.keeper ≡ engine.old.keeper ++ synced answer ∷ [])) }
{
    if !any_waits(parts.as_slice()) {
        return answer_unsynced(parts, room);
    }
    let mut sync = engine.sync(rt, history);
    answer_synced(history, &mut sync, parts, room)
}

/// Whether a caller waits for a sync.
fn any_waits<L: Opening>(parts: &[Part<L>]) -> bool
    ensures { result ≡ list_any (λ part. waits part.sync part.result) parts.now }
{
    parts.iter().any(|part| part.waits())
}

/// Returns the answers to callers of whom none waits for a sync. There must be room for them.
fn answer_unsynced<L: Opening>(parts: Vec<Part<L>>, room: Vec<Done<L>>) -> Vec<Done<L>>
    requires room { (room.items ≡ []) × (length parts.items ≤ vec_capacity room) }
    requires none { All (λ part. waits part.sync part.result ≡ false) parts.items }
    ensures { map (λ done. done.ask) result.items ≡ map (λ part. part.ask) parts.items }
{
    let mut done = room;
    let mut parts = VecDeque::from_vec(parts);
    while let Some(part) = parts.pop_front() {
        done.push_reserved(part.unsynced());
    }
    done
}

/// Returns the answers to callers after a sync, which came after the writes of all their batches. There must be room
/// for them.
fn answer_synced<L: Opening>(
    history: &History<L>,
    sync: &mut Synced<L>,
    parts: Vec<Part<L>>,
    room: Vec<Done<L>>,
) -> Vec<Done<L>>
    requires room { (room.items ≡ []) × (length parts.items ≤ vec_capacity room) }
    requires before { All (λ part. part.claim.0 < sync.old.claim.0) parts.items }
    ensures { map (λ done. done.ask) result.items ≡ map (λ part. part.ask) parts.items }
{
    let mut done = room;
    let mut parts = VecDeque::from_vec(parts);
    while let Some(part) = parts.pop_front() {
        done.push_reserved(answer(history, sync, part));
    }
    done
}

/// Returns the answer to a caller after a sync, which came after the write of its batch.
fn answer<L: Opening>(history: &History<L>, sync: &mut Synced<L>, part: Part<L>) -> Done<L>
    requires { part.claim.0 < sync.old.claim.0 }
    ensures ask { result.ask ≡ part.ask }
    ensures same { sync.new.claim ≡ sync.old.claim }
{
    if part.waits() {
        part.synced(history, sync)
    } else {
        part.unsynced()
    }
}
