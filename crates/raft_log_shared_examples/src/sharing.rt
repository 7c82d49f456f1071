//! An engine that two threads share. Each writes a batch with a sync, and then the sharing ends.

ghost use Rattle.std.specs.Prelude.{◌≡◌, ◌↔◌, ◌++◌, option_to_list, IfOk};
ghost use Rattle.std.specs.Thread.{IsSync};
ghost use Rattle.raft_log_engine.specs.raft_log_engine_laws.specs.EngineState.{LogDirectories};
ghost use Rattle.raft_log_engine.specs.raft_log_engine_core.specs.ModelCalls.{IsEngineLog};
ghost use Rattle.raft_log_engine.specs.raft_log_engine_core.specs.Reads.{shows_of};
ghost use Rattle.raft_log_world.specs.Model.{ModelLog};
ghost use Rattle.raft_log_shared.specs.Names.{id_of};
ghost use Rattle.raft_log_shared.specs.Receipts.{ComesBack};
ghost use Rattle.raft_log_shared_examples.specs.Sharing.{IsAnswered, IsConfirmed, SharesAndWrites};

use log::Log;
use raft_log_engine::{LogBatch, LogEngine, PipeLog, Result};
use raft_log_shared::laws::synced_writes_are_durable;
use raft_log_shared::{FreshHistory, Opening, Receipt, SharedEngine, Written};
use std::alloc::{AllocError, Global};
use std::marker::Brand;
use std::sync::Wait;
use std::thread;
use std::thread::Threads;

/// An engine that was shared, and what the writes of two threads returned.
#[derive(Drop)]
pub struct Shared<P> {
    /// The engine.
    pub engine: LogEngine<P>,
    /// What the first thread's write returned.
    pub first: Result<usize>,
    /// What the second thread's write returned.
    pub second: Result<usize>,
}

/// Two threads share an engine, and each writes a batch with a sync. Then the sharing ends. Fails only if memory runs
/// out; the engine is dropped then.
pub fn share<R: Threads + Wait + Log + Send + Sync, P: PipeLog + Send + Sync + Drop>(
    rt: &R,
    alloc: Global,
    engine: LogEngine<P>,
    one: LogBatch,
    other: LogBatch,
) -> Result<Shared<P>, AllocError>
    ensures { IfOk result (λ shared. SharesAndWrites (one, shared.first) (other, shared.second)
        (shows_of P.shown engine) (shows_of P.shown shared.engine)) }
{
    let history = FreshHistory::new(alloc)?;
    let asks = FreshHistory::new(alloc)?;
    share_among::<R, P, Brand>(rt, alloc, engine, history, asks, one, other)
}

/// The same for a named opening. The model logs with which the sharing begins are exactly those that the engine has
/// open.
fn share_among<
    R: Threads + Wait + Log + Send + Sync,
    P: PipeLog + Send + Sync + Drop,
    L: Opening + Send + Sync,
>(
    rt: &R,
    alloc: Global,
    engine: LogEngine<P>,
    history: FreshHistory,
    asks: FreshHistory,
    one: LogBatch,
    other: LogBatch,
) -> Result<Shared<P>, AllocError>
    requires names { (id_of history ≡ L.history) × (id_of asks ≡ L.asks) }
    requires began { (home : LogDirectories) (log : ModelLog) → L.began home log
        ↔ IsEngineLog home (shows_of P.shown engine) log }
    ensures { IfOk result (λ shared. SharesAndWrites (one, shared.first) (other, shared.second)
        (shows_of P.shown engine) (shows_of P.shown shared.engine)) }
{
    synced_writes_are_durable();
    let shared: SharedEngine<P, L> = SharedEngine::new(alloc, engine, history, asks);
    let (first, second) = write_both(rt, &shared, one, other);
    end_sharing(rt, alloc, shared, first, second)
}

/// Two threads write a batch each, with a sync.
fn write_both<
    R: Threads + Wait + Log + Send + Sync,
    P: PipeLog + Send + Sync + Drop,
    L: Opening + Send + Sync,
>(rt: &R, shared: &SharedEngine<P, L>, one: LogBatch, other: LogBatch) -> (Written<L>, Written<L>)
    ensures one { IsAnswered one result.0.result result.0.receipt }
    ensures other { IsAnswered other result.1.result result.1.receipt }
{
    thread::join(
        rt,
        move || -> Written<L>
            requires { IsSync R.row }
            ensures { IsAnswered one result.result result.receipt }
        { write_durably(rt, shared, one) },
        move || -> Written<L>
            requires { IsSync R.row }
            ensures { IsAnswered other result.result result.receipt }
        { write_durably(rt, shared, other) },
    )
}

/// Writes a batch with a sync, and has its receipt compared with the history. If the write returned `Ok`, the batch is
/// durable when this returns, while other threads may still write.
pub fn write_durably<R: Wait + Log, P: PipeLog, L: Opening>(
    rt: &R,
    shared: &SharedEngine<P, L>,
    batch: LogBatch,
) -> Written<L>
    ensures answered { IsAnswered batch result.result result.receipt }
    ensures confirmed { IsConfirmed L.began (batch, result.result) }
{
    synced_writes_are_durable();
    let mut written = shared.write(rt, batch, true);
    shared.confirm(rt, written.receipt.as_mut_slice());
    written
}

/// Ends the sharing, given what both writes returned. The history has the records of both receipts.
fn end_sharing<R: Wait, P: PipeLog + Drop, L: Opening>(
    rt: &R,
    alloc: Global,
    shared: SharedEngine<P, L>,
    one: Written<L>,
    other: Written<L>,
) -> Result<Shared<P>, AllocError>
    ensures back { IfOk result (λ ended. ComesBack L.began (shows_of P.shown ended.engine)
        (option_to_list one.receipt ++ option_to_list other.receipt)) }
    ensures first { IfOk result (λ ended. ended.first ≡ one.result) }
    ensures second { IfOk result (λ ended. ended.second ≡ other.result) }
{
    let receipts = add_receipt(Vec::new(alloc), one.receipt)?;
    let receipts = add_receipt(receipts, other.receipt)?;
    Ok(Shared {
        engine: shared.into_engine(rt, receipts),
        first: one.result,
        second: other.result,
    })
}

/// Adds a receipt to others, if there is one.
fn add_receipt<L: Opening>(
    receipts: Vec<Receipt<L>>,
    receipt: Option<Receipt<L>>,
) -> Result<Vec<Receipt<L>>, AllocError>
    ensures { IfOk result (λ all. all.items ≡ receipts.items ++ option_to_list receipt) }
{
    let mut receipts = receipts;
    match receipt {
        Some(receipt) => {
            receipts.push(receipt)?;
            Ok(receipts)
        }
        None => Ok(receipts),
    }
}
