//! Calls of an engine, and how they end.

ghost use Rattle.std.specs.Prelude.{◌≡◌};
ghost use Rattle.raft_log_engine.specs.raft_log_engine_core.specs.Reads.{shows_of};
ghost use Rattle.raft_log_world_engine.specs.Calls.{ServesAs, failure_of};

use log::Log;
use raft_log_engine::{LogBatch, LogEngine, PipeLog};
use raft_log_record_items::RawEntries;
use raft_log_world::{Answer, Call, Purge};

/// How a call or a close ended that failed; `failed` is whether the engine has failed.
pub fn failure(failed: bool) -> Answer
    ensures { result ≡ failure_of failed }
{
    if failed {
        Answer::Failed
    } else {
        Answer::Refused
    }
}

/// Writes a batch. With `sync`, then makes all batches durable.
pub fn write<L: Log, P: PipeLog>(
    rt: &L,
    engine: &mut LogEngine<P>,
    mut batch: LogBatch,
    sync: bool,
) -> Answer
    ensures { ServesAs (shows_of P.shown engine.old) (Call.Write batch sync) result
        (shows_of P.shown engine.new) }
{
    match engine.write(rt, &mut batch, sync) {
        Ok(_) => Answer::Done,
        Err(_) => failure(engine.is_failed()),
    }
}

/// Makes all batches durable.
pub fn sync_log<L: Log, P: PipeLog>(rt: &L, engine: &mut LogEngine<P>) -> Answer
    ensures { ServesAs (shows_of P.shown engine.old) Call.Sync result (shows_of P.shown engine.new) }
{
    match engine.sync(rt) {
        Ok(()) => Answer::Done,
        Err(_) => failure(engine.is_failed()),
    }
}

/// Reads the value of a group's key.
pub fn get<P: PipeLog>(engine: &mut LogEngine<P>, group: u64, key: Vec<u8>) -> Answer
    ensures { ServesAs (shows_of P.shown engine.old) (Call.Get group key) result
        (shows_of P.shown engine.new) }
{
    match engine.get(group, key.as_slice()) {
        Ok(value) => Answer::Found(value),
        Err(_) => failure(engine.is_failed()),
    }
}

/// Reads the entry of a group at an index.
pub fn get_entry<P: PipeLog>(engine: &mut LogEngine<P>, group: u64, index: u64) -> Answer
    ensures { ServesAs (shows_of P.shown engine.old) (Call.GetEntry group index) result
        (shows_of P.shown engine.new) }
{
    match engine.get_entry::<RawEntries>(group, index) {
        Ok(Some(message)) => Answer::Found(Some(message.bytes.into_vec())),
        Ok(None) => Answer::Found(None),
        Err(_) => failure(engine.is_failed()),
    }
}

/// Reads the first index at which a group has an entry.
pub fn first_index<P: PipeLog>(engine: &mut LogEngine<P>, group: u64) -> Answer
    ensures { ServesAs (shows_of P.shown engine.old) (Call.FirstIndex group) result
        (shows_of P.shown engine.new) }
{
    match engine.first_index(group) {
        Ok(index) => Answer::At(index),
        Err(_) => failure(engine.is_failed()),
    }
}

/// Reads the last index at which a group has an entry.
pub fn last_index<P: PipeLog>(engine: &mut LogEngine<P>, group: u64) -> Answer
    ensures { ServesAs (shows_of P.shown engine.old) (Call.LastIndex group) result
        (shows_of P.shown engine.new) }
{
    match engine.last_index(group) {
        Ok(index) => Answer::At(index),
        Err(_) => failure(engine.is_failed()),
    }
}

/// Deletes the entries of a group below an index.
pub fn compact<L: Log, P: PipeLog>(
    rt: &L,
    engine: &mut LogEngine<P>,
    group: u64,
    index: u64,
) -> Answer
    ensures { ServesAs (shows_of P.shown engine.old) (Call.Compact group index) result
        (shows_of P.shown engine.new) }
{
    match engine.compact_to(rt, group, index) {
        Ok(_) => Answer::Done,
        Err(_) => failure(engine.is_failed()),
    }
}

/// Makes a purge of this kind.
pub fn purge<L: Log, P: PipeLog>(rt: &L, engine: &mut LogEngine<P>, kind: Purge) -> Answer
    ensures { ServesAs (shows_of P.shown engine.old) (Call.Purge kind) result
        (shows_of P.shown engine.new) }
{
    match kind {
        Purge::Expired => purge_expired(rt, engine),
        Purge::Stale => purge_stale(rt, engine),
        Purge::RewriteAppend {
            watermark,
            exit_after_step,
        } => rewrite_append(rt, engine, watermark, exit_after_step),
        Purge::RewriteRewrite => rewrite_rewrite(rt, engine),
    }
}

/// Purges both queues if they are past the thresholds of the settings.
fn purge_expired<L: Log, P: PipeLog>(rt: &L, engine: &mut LogEngine<P>) -> Answer
    ensures { ServesAs (shows_of P.shown engine.old) (Call.Purge Purge.Expired) result
        (shows_of P.shown engine.new) }
{
    match engine.purge_expired_files(rt) {
        Ok(_) => Answer::Done,
        Err(_) => failure(engine.is_failed()),
    }
}

/// Deletes the files in which nothing is in use.
fn purge_stale<L: Log, P: PipeLog>(rt: &L, engine: &mut LogEngine<P>) -> Answer
    ensures { ServesAs (shows_of P.shown engine.old) (Call.Purge Purge.Stale) result
        (shows_of P.shown engine.new) }
{
    match engine.must_purge_all_stale(rt) {
        Ok(()) => Answer::Done,
        Err(_) => failure(engine.is_failed()),
    }
}

/// Writes what is live in Append to Rewrite.
fn rewrite_append<L: Log, P: PipeLog>(
    rt: &L,
    engine: &mut LogEngine<P>,
    watermark: Option<u64>,
    exit_after_step: Option<u64>,
) -> Answer
    ensures { ServesAs (shows_of P.shown engine.old)
        (Call.Purge (Purge.RewriteAppend watermark exit_after_step)) result
        (shows_of P.shown engine.new) }
{
    match engine.must_rewrite_append_queue(rt, watermark, exit_after_step) {
        Ok(()) => Answer::Done,
        Err(_) => failure(engine.is_failed()),
    }
}

/// Writes what is live in Rewrite to it again.
fn rewrite_rewrite<L: Log, P: PipeLog>(rt: &L, engine: &mut LogEngine<P>) -> Answer
    ensures { ServesAs (shows_of P.shown engine.old) (Call.Purge Purge.RewriteRewrite) result
        (shows_of P.shown engine.new) }
{
    match engine.must_rewrite_rewrite_queue(rt) {
        Ok(()) => Answer::Done,
        Err(_) => failure(engine.is_failed()),
    }
}
