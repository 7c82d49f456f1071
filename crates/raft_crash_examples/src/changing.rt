//! Changes keys of a log.

ghost use Rattle.std.specs.Prelude.{◌≡◌, IfOk, OnOk};
ghost use Rattle.raft_log_engine.specs.raft_log_engine_core.specs.Reads.{shows_of};
ghost use Rattle.raft_crash_examples.specs.Changing.{AddsChange, ChangesKey, ChangesKeys};
ghost use Rattle.raft_log_engine.specs.raft_log_record_batches.specs.declared.log_batch.BatchState.TheVariants.{Filling};

use log::Log;
use raft_log_engine::{LogBatch, LogEngine, PipeLog, Result};
use std::alloc::Global;

/// A change of a group's key: it gets a value, or is deleted if there is none.
#[derive(Drop)]
pub struct KeyChange {
    /// The group.
    pub group: u64,
    /// The key.
    pub key: Vec<u8>,
    /// Its value after the change.
    pub value: Option<Vec<u8>>,
}

/// Adds a change to a batch. Rejects a key of the log's own.
pub fn add(alloc: Global, batch: &mut LogBatch, change: &KeyChange) -> Result<()>
    requires { batch.old.state ≡ Filling }
    ensures { OnOk result (AddsChange change.now batch.old batch.new) }
{
    match &change.value {
        Some(value) => batch.put(alloc, change.group, change.key.as_slice(), value.as_slice()),
        None => batch.delete(alloc, change.group, change.key.as_slice()),
    }
}

/// Writes a change durably.
pub fn write_change<L: Log, P: PipeLog>(
    rt: &L,
    alloc: Global,
    engine: &mut LogEngine<P>,
    change: &KeyChange,
) -> Result<()>
    ensures ok { OnOk result (ChangesKey change.now
        (shows_of P.shown engine.old) (shows_of P.shown engine.new)) }
{
    let mut batch = LogBatch::default(alloc)?;
    add(alloc, &mut batch, change)?;
    engine.write(rt, &mut batch, true)?;
    Ok(())
}

/// Writes changes in order, each durably.
pub fn write_changes<L: Log, P: PipeLog>(
    rt: &L,
    alloc: Global,
    engine: &mut LogEngine<P>,
    changes: &[KeyChange],
) -> Result<()>
    ensures ok { OnOk result (ChangesKeys changes.now
        (shows_of P.shown engine.old) (shows_of P.shown engine.new)) }
{
    for change in changes {
        write_change(rt, alloc, engine, change)?;
    }
    Ok(())
}
