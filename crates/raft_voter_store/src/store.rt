//! Voters whose log an engine keeps.
ghost use Rattle.std.specs.Prelude.{◌≡◌, ℕ, false, true, None, IfErr, IfOk, OnErr, OnOk};
ghost use Rattle.raft_log_engine.specs.raft_log_engine_core.specs.Reads.{shows_of};

mod counting;
mod forking;
mod opening;
mod reading;
mod rounds;
mod service;
mod status;
mod upkeep;

use crate::counters::WorkCounters;
use crate::writing::write_change;
use log::Log;
pub use opening::{StoreRefused, VoterStore};
use raft_log_engine::{Error, LogBatch, LogEngine, PipeLog, Result};
use raft_voter_messages::{Reply, Request};
use raft_voter_outline::{Answer, Change, Decision, Outline, Outlines};
use std::alloc::{AllocError, Global};

/// The voters of many groups: the engine that keeps their log, over any pipes, and the outline of each voter.
#[derive(Drop)]
pub struct LogVoterStore<P> {
    alloc: Global,
    engine: LogEngine<P>,
    outlines: Outlines,
    /// The batch of the last change that was written; the next one uses its memory.
    batch: Option<LogBatch>,
    /// What it has done since it was opened.
    work: WorkCounters,
}

/// A request that was served: its reply, and whether a record was written for it.
#[derive(Drop)]
struct Taken {
    /// The reply.
    reply: Reply,
    /// Whether a record was written.
    wrote: bool,
}

impl<P: PipeLog> LogVoterStore<P> {
    ghost use Rattle.raft_log_engine.specs.raft_log_engine_laws.specs.Fetching.{StaysButBlock};
    ghost use Rattle.raft_log_engine.specs.raft_log_engine_laws.specs.EngineState.{has_failed};
    ghost use Rattle.raft_voter_outline.specs.declared.outline.decision.Answer.TheVariants as answers;
    ghost use Rattle.raft_voter_outline.specs.Outlines.{ChangesEach, IsReplyOfEach};
    ghost use Rattle.raft_voter_outline.specs.State.{fresh};
    ghost use Rattle.raft_voter_durability_laws.specs.Laws.{IsBare};
    ghost use Rattle.raft_voter_durability_laws.specs.Requests.{Served, StepsOutlines};
    ghost use Rattle.raft_voter_outline.specs.Kept.{kept_of, outlines_in};
    ghost use Rattle.raft_voter_outline.specs.Rules.{is_retire};
    ghost use Rattle.raft_voter_store.specs.Counting.{no_work};
    ghost use Rattle.raft_voter_store.specs.Silence.{AsksForNone, IfVoterStays, ReadsAlone};
    ghost use Rattle.raft_voter_store.specs.Taking.{FailsToTake};
    ghost use Rattle.raft_voter_store.specs.Writing.{FailsToWriteChange, WritesChange};

    /// A store over an engine with an empty log: each group's voter is fresh. It isn't checked that the log is empty.
    pub fn over_fresh(alloc: Global, engine: LogEngine<P>) -> LogVoterStore<P>
        ensures engine { result.engine ≡ engine }
        ensures outlines { (g : ℕ) → outlines_in result.outlines g ≡ fresh }
        ensures work { result.work ≡ no_work }
    {
        let outlines = Outlines::new(alloc);
        LogVoterStore {
            alloc,
            engine,
            outlines,
            batch: None,
            work: WorkCounters::new(),
        }
    }

    /// Serves one request of a group. The outline decides the request, and the store writes what the request changes,
    /// or reads the entries that it asks for. Fails if the request is rejected, or the engine fails at it.
    fn take<R: Log>(&mut self, rt: &R, group: u64, request: &Request) -> Result<Taken>
        requires { has_failed (shows_of P.shown self.old.engine) ≡ false }
        ensures ok { IfOk result (λ taken. Served (group, request.now) taken.reply taken.wrote
            (shows_of P.shown self.old.engine) (shows_of P.shown self.new.engine)
            (outlines_in self.old.outlines) (outlines_in self.new.outlines)) }
        ensures err { IfErr result (λ error. FailsToTake (group, request.now) error
            (shows_of P.shown self.old.engine) (shows_of P.shown self.new.engine)
            (outlines_in self.old.outlines) (outlines_in self.new.outlines)) }
        ensures unwritten { IfOk result (λ taken. IfVoterStays (outlines_in self.old.outlines)
            (group, request.now) (taken.wrote ≡ false)) }
        ensures quiet { IfVoterStays (outlines_in self.old.outlines) (group, request.now)
            (ReadsAlone (shows_of P.shown self.old.engine) (shows_of P.shown self.new.engine)
            self.old.outlines self.new.outlines) }
        ensures idle { AsksForNone (group, request.now)
            → IfVoterStays (outlines_in self.old.outlines) (group, request.now) (self.new ≡ self.old) }
    {
        let Decision { answer, change } = self.outlines.decide(group, request);
        match answer {
            Answer::Entries { from, to } => self.read(group, from, to, request),
            Answer::Told(reply) => match change {
                Some(change) => self.write(rt, group, request, reply, &change),
                None => Ok(Taken {
                    reply,
                    wrote: false,
                }),
            },
        }
    }

    /// Writes what a request changes, and the outline makes the change. The outline of a retired group goes.
    fn write<R: Log>(
        &mut self,
        rt: &R,
        group: u64,
        request: &Request,
        reply: Reply,
        change: &Change,
    ) -> Result<Taken>
        requires lives { has_failed (shows_of P.shown self.old.engine) ≡ false }
        requires bare { IsBare (outlines_in self.old.outlines group) }
        requires decided { ChangesEach (outlines_in self.old.outlines group) request.now change.now }
        requires told { IsReplyOfEach (outlines_in self.old.outlines group) request.now (answers.Told reply) }
        ensures ok { IfOk result (λ taken. Served (group, request.now) taken.reply taken.wrote
            (shows_of P.shown self.old.engine) (shows_of P.shown self.new.engine)
            (outlines_in self.old.outlines) (outlines_in self.new.outlines)) }
        ensures err { IfErr result (λ error. FailsToTake (group, request.now) error
            (shows_of P.shown self.old.engine) (shows_of P.shown self.new.engine)
            (outlines_in self.old.outlines) (outlines_in self.new.outlines)) }
        ensures gone { OnOk result (is_retire request.now ≡ true
            → kept_of self.new.outlines group ≡ None) }
    {
        let Ok(mut batch) = or_new(self.alloc, self.batch.take()) else {
            return Err(Error::Memory);
        };
        match self.log_change(rt, &mut batch, group, change, request) {
            Ok(()) => {
                self.batch = Some(batch);
                self.forget_retired(group, request);
                Ok(Taken { reply, wrote: true })
            }
            Err(error) => Err(error),
        }
    }

    /// Forgets the outline of the group if the request retired it. The voters are unchanged.
    fn forget_retired(&mut self, group: u64, request: &Request)
        requires { is_retire request.now ≡ true → outlines_in self.old.outlines group ≡ fresh }
        ensures gone { is_retire request.now ≡ true → kept_of self.new.outlines group ≡ None }
        ensures voters { (g : ℕ) → outlines_in self.new.outlines g ≡ outlines_in self.old.outlines g }
        ensures engine { self.new.engine ≡ self.old.engine }
        ensures work { self.new.work ≡ self.old.work }
    {
        match request {
            Request::Retire => self.outlines.forget(group),
            _ => {}
        }
    }

    /// Writes what was decided for a request in this batch, and its group's outline makes the change.
    fn log_change<R: Log>(
        &mut self,
        rt: &R,
        batch: &mut LogBatch,
        group: u64,
        change: &Change,
        request: &Request,
    ) -> Result<()>
        requires bare { IsBare (outlines_in self.old.outlines group) }
        requires decided { ChangesEach (outlines_in self.old.outlines group) request.now change.now }
        ensures ok { OnOk result (WritesChange (group, request.now) change.now
            (shows_of P.shown self.old.engine) (shows_of P.shown self.new.engine)) }
        ensures steps { OnOk result (StepsOutlines (group, request.now)
            (outlines_in self.old.outlines) (outlines_in self.new.outlines)) }
        ensures err { IfErr result (λ error. FailsToWriteChange (group, request.now) change.now error
            (shows_of P.shown self.old.engine) (shows_of P.shown self.new.engine)) }
        ensures same { OnErr result ((g : ℕ) → outlines_in self.new.outlines g ≡ outlines_in self.old.outlines g) }
    {
        match self.outlines.get_mut(group) {
            Some(outline) => write_change(
                rt,
                self.alloc,
                &mut self.engine,
                batch,
                outline,
                group,
                change,
                request,
            ),
            None => self.put_first(rt, batch, group, change, request),
        }
    }

    /// The same for a group without an outline: keeps a fresh one before anything is written.
    fn put_first<R: Log>(
        &mut self,
        rt: &R,
        batch: &mut LogBatch,
        group: u64,
        change: &Change,
        request: &Request,
    ) -> Result<()>
        requires fresh { outlines_in self.old.outlines group ≡ fresh }
        requires bare { IsBare (outlines_in self.old.outlines group) }
        requires decided { ChangesEach (outlines_in self.old.outlines group) request.now change.now }
        ensures ok { OnOk result (WritesChange (group, request.now) change.now
            (shows_of P.shown self.old.engine) (shows_of P.shown self.new.engine)) }
        ensures steps { OnOk result (StepsOutlines (group, request.now)
            (outlines_in self.old.outlines) (outlines_in self.new.outlines)) }
        ensures err { IfErr result (λ error. FailsToWriteChange (group, request.now) change.now error
            (shows_of P.shown self.old.engine) (shows_of P.shown self.new.engine)) }
        ensures same { OnErr result ((g : ℕ) → outlines_in self.new.outlines g ≡ outlines_in self.old.outlines g) }
    {
        let Ok(()) = self.outlines.put(group, Outline::new(self.alloc)) else {
            return Err(Error::Memory);
        };
        match self.outlines.get_mut(group) {
            Some(outline) => write_change(
                rt,
                self.alloc,
                &mut self.engine,
                batch,
                outline,
                group,
                change,
                request,
            ),
            None => unreachable!(),
        }
    }

    /// Reads the entries of a group from one index on, below another.
    fn read(&mut self, group: u64, from: u64, to: u64, request: &Request) -> Result<Taken>
        requires lives { has_failed (shows_of P.shown self.old.engine) ≡ false }
        requires told { IsReplyOfEach (outlines_in self.old.outlines group) request.now
            (answers.Entries from to) }
        ensures ok { IfOk result (λ taken. Served (group, request.now) taken.reply taken.wrote
            (shows_of P.shown self.old.engine) (shows_of P.shown self.new.engine)
            (outlines_in self.old.outlines) (outlines_in self.new.outlines)) }
        ensures err { IfErr result (λ error. FailsToTake (group, request.now) error
            (shows_of P.shown self.old.engine) (shows_of P.shown self.new.engine)
            (outlines_in self.old.outlines) (outlines_in self.new.outlines)) }
        ensures unwritten { IfOk result (λ taken. taken.wrote ≡ false) }
        ensures stays { StaysButBlock
            (shows_of P.shown self.old.engine) (shows_of P.shown self.new.engine) }
        ensures outlines { self.new.outlines ≡ self.old.outlines }
    {
        match self.entries(group, from, to, None) {
            Ok(entries) => Ok(Taken {
                reply: Reply::Entries(entries),
                wrote: false,
            }),
            Err(error) => Err(error),
        }
    }
}

/// The batch that was kept, or a new one.
fn or_new(alloc: Global, kept: Option<LogBatch>) -> Result<LogBatch, AllocError> {
    match kept {
        Some(batch) => Ok(batch),
        None => LogBatch::with_capacity(alloc, 2),
    }
}
