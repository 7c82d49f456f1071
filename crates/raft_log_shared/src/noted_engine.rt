//! An engine whose calls have a history.
ghost use Rattle.std.specs.Prelude.{◌≡◌, ◌++◌, ◌∷◌, [], false, length, IfOk};
ghost use Rattle.raft_log_engine_laws.specs.EngineState.{LogDirectories};
ghost use Rattle.raft_log_engine_core.specs.ModelCalls.{FetchesMessages, FollowsModel, IsEngineLog, IsValueOf, ModelWrites};
ghost use Rattle.raft_log_engine_core.specs.Reads.{shows_of};
ghost use Rattle.raft_log_world.specs.Model.{ModelLog};
ghost use Rattle.raft_log_world.specs.declared.event.Call.TheVariants.{Purge as PurgeCall, Write};
ghost use Rattle.raft_log_world.specs.declared.event.Purge.TheVariants.{Expired};
ghost use Rattle.raft_log_shared.specs.Calls.{AllLead, WasRead, WasServed, answer_of, synced, wrote};
ghost use Rattle.raft_log_shared.specs.Receipts.{AreIn, IsHome, sync_answer};

use crate::claim::Claim;
use crate::history::History;
use crate::job::Synced;
use crate::keeper::Keeper;
use crate::opening::Opening;
use crate::receipt::{Receipt, find_all};
use crate::rule::Noting;
use log::Log;
use raft_log_dual_pipes::PipeLog;
use raft_log_engine_core::LogEngine;
use raft_log_record_base::{Error, Result};
use raft_log_record_batches::LogBatch;
use raft_log_record_items::MessageExt;
use raft_log_world::Answer;
use std::marker::Brand;
use std::sync::Wait;

/// An engine, and the history of the calls that it served since it was shared. By this history, each log that it had
/// open then becomes a log that it has open now.
#[derive(Drop)]
pub struct NotedEngine<P: PipeLog, L: Opening> {
    engine: LogEngine<P>,
    keeper: Keeper<L>,
    ghost leads: { AllLead L.began keeper (shows_of P.shown engine) },
}

impl<P: PipeLog, L: Opening> NotedEngine<P, L> {
    /// Returns an engine with an empty history.
    pub fn new(engine: LogEngine<P>, keeper: Keeper<L>) -> NotedEngine<P, L>
        requires empty { keeper ≡ [] }
        requires began { (home : LogDirectories) (log : ModelLog) → L.began home log
            → IsEngineLog home (shows_of P.shown engine) log }
    {
        NotedEngine { engine, keeper }
    }

    /// Writes a batch without a sync, as the engine's `write` does. Returns what that returned, and a claim for its
    /// record.
    pub fn write<R: Wait + Log>(
        &mut self,
        rt: &R,
        history: &History<L>,
        batch: &mut LogBatch,
    ) -> (Result<usize>, Claim<L>)
        ensures noted { self.new.keeper ≡ self.old.keeper ++ wrote batch.old (answer_of result.0) ∷ [] }
        ensures claim { result.1 ≡ (length self.old.keeper, wrote batch.old (answer_of result.0) ∷ []) }
        ensures home { ∥ IsHome batch.old batch.new result.0 ∥₁ }
    {
        let NotedEngine { engine, keeper } = self;
        written::<Brand, P, L, R>(rt, history, engine, keeper, batch)
    }

    /// Makes all batches durable, as the engine's `sync` does.
    pub fn sync<R: Wait + Log>(&mut self, rt: &R, history: &History<L>) -> Synced<L>
        ensures noted { self.new.keeper ≡ self.old.keeper ++ synced (sync_answer result.failed) ∷ [] }
        ensures claim { result.claim.0 ≡ length self.old.keeper }
    {
        let NotedEngine { engine, keeper } = self;
        let synced = engine.sync(rt);
        let answer = answer_to(&synced);
        let claim = keeper.note::<Brand, R>(rt, history, &answer);
        Synced {
            failed: synced.is_err(),
            claim,
        }
    }

    /// Purges the files, as the engine's `purge_expired_files` does.
    pub fn purge_expired_files<R: Wait + Log>(
        &mut self,
        rt: &R,
        history: &History<L>,
    ) -> Result<Vec<u64>>
        ensures noted { self.new.keeper ≡ self.old.keeper
            ++ record { call = PurgeCall Expired; answer = answer_of result } ∷ [] }
        ensures served { WasServed L.began (PurgeCall Expired) (answer_of result) }
    {
        let NotedEngine { engine, keeper } = self;
        let purged = engine.purge_expired_files(rt);
        let answer = answer_to(&purged);
        let _claim = keeper.note::<Brand, R>(rt, history, &answer);
        purged
    }

    /// Returns a copy of the value of a group's key, as the engine's `get` does.
    pub fn get(&self, raft_group_id: u64, key: &[u8]) -> Result<Option<Vec<u8>>>
        ensures { IfOk result (WasRead L.began (IsValueOf raft_group_id key.now)) }
    {
        self.engine.get(raft_group_id, key)
    }

    /// Appends entries of a group to `vec`, as the engine's `fetch_entries_to` does.
    pub fn fetch_entries_to<M: MessageExt>(
        &mut self,
        raft_group_id: u64,
        begin: u64,
        end: u64,
        max_size: Option<usize>,
        vec: &mut Vec<M::Entry>,
    ) -> Result<usize>
        ensures ok { IfOk result (WasRead L.began (FetchesMessages M.Entry.reading raft_group_id begin end max_size
            vec.old.items vec.new.items)) }
        ensures same { self.new.keeper ≡ self.old.keeper }
    {
        self.engine
            .fetch_entries_to::<M>(raft_group_id, begin, end, max_size, vec)
    }

    /// Compares receipts with the history, which has them.
    pub fn confirm<R: Wait>(&mut self, rt: &R, history: &History<L>, receipts: &mut [Receipt<L>])
        ensures receipts { receipts.new ≡ receipts.old }
        ensures same { self.new.keeper ≡ self.old.keeper }
        ensures found { AreIn L.began receipts.old }
    {
        let NotedEngine { engine: _, keeper } = self;
        find_all(rt, history, keeper, receipts);
    }

    /// Returns the engine and the keeper of its history.
    pub fn split(self) -> (LogEngine<P>, Keeper<L>)
        ensures { AllLead L.began result.1 (shows_of P.shown result.0) }
    {
        let NotedEngine { engine, keeper } = self;
        (engine, keeper)
    }
}

/// Writes a batch without a sync, and adds the record of the write to the history. `X` names the write.
fn written<X: Noting, P: PipeLog, L: Opening, R: Wait + Log>(
    rt: &R,
    history: &History<L>,
    engine: &mut LogEngine<P>,
    keeper: &mut Keeper<L>,
    batch: &mut LogBatch,
) -> (Result<usize>, Claim<L>)
    requires { X.call ≡ Write batch.old false }
    ensures model { FollowsModel (ModelWrites batch.old false) result.0
        (shows_of P.shown engine.old) (shows_of P.shown engine.new) }
    ensures noted { keeper.new ≡ keeper.old ++ wrote batch.old (answer_of result.0) ∷ [] }
    ensures claim { result.1 ≡ (length keeper.old, wrote batch.old (answer_of result.0) ∷ []) }
    ensures home { IsHome batch.old batch.new result.0 }
{
    let result = engine.write(rt, batch, false);
    let answer = answer_to(&result);
    let claim = keeper.note::<X, R>(rt, history, &answer);
    (result, claim)
}

/// Returns how a call ended that returned this.
fn answer_to<T>(returned: &Result<T>) -> Answer
    ensures { result ≡ answer_of returned.now }
{
    match returned {
        Ok(_) => Answer::Done,
        Err(Error::Failed) => Answer::Failed,
        Err(_) => Answer::Refused,
    }
}
