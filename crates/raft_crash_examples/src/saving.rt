//! Saves a key's value in a log, and reads it from one.

ghost use Rattle.std.specs.Prelude.{IfOk, OnOk, option_map};
ghost use Rattle.raft_log_engine.specs.raft_log_engine_core.specs.Reads.{shows_of};
ghost use Rattle.raft_crash_examples.specs.Saving.{Loads, PutsKey, Saves};

use crate::opening::open;
use log::Log;
use raft_log_engine::{
    Config, Engine, EnginePipes, FileSystem, LogBatch, LogEngine, PipeLog, Result,
};
use std::alloc::Global;
use std::thread::Threads;

/// Puts a group's key in a log, and syncs it if `sync` is set.
pub fn put<L: Log, P: PipeLog>(
    rt: &L,
    alloc: Global,
    engine: &mut LogEngine<P>,
    group: u64,
    key: &[u8],
    value: &[u8],
    sync: bool,
) -> Result<()>
    ensures ok { OnOk result (PutsKey group key.now value.now sync
        (shows_of P.shown engine.old) (shows_of P.shown engine.new)) }
{
    let mut batch = LogBatch::default(alloc)?;
    batch.put(alloc, group, key, value)?;
    engine.write(rt, &mut batch, sync)?;
    Ok(())
}

/// Opens the log of these settings, and saves a group's key in it durably.
pub fn save<R: Threads + Log + Sync, F: FileSystem + Sync + Drop>(
    rt: &R,
    alloc: Global,
    config: Config,
    files: F,
    group: u64,
    key: &[u8],
    value: &[u8],
) -> Result<Engine<F>>
    ensures ok { IfOk result (λ engine. Saves F.disk F.tells_space config group key.now value.now files
        (shows_of ⟦<EnginePipes<F> as PipeLog>⟧.shown engine)) }
{
    let mut engine = open(rt, alloc, config, files)?;
    put(rt, alloc, &mut engine, group, key, value, true)?;
    Ok(engine)
}

/// Opens the log of these settings, and reads a group's key from it.
pub fn load<R: Threads + Log + Sync, F: FileSystem + Sync + Drop>(
    rt: &R,
    alloc: Global,
    config: Config,
    files: F,
    group: u64,
    key: &[u8],
) -> Result<Option<Vec<u8>>>
    ensures ok { IfOk result (λ found. Loads F.disk F.tells_space config group key.now files
        (option_map (λ bytes. bytes.items) found)) }
{
    let engine = open(rt, alloc, config, files)?;
    engine.get(group, key)
}
