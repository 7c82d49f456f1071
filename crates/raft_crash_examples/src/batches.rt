//! Writes two changes in one batch, and loses power: both are there, or neither is.

ghost use Rattle.std.specs.Prelude.{IfOk, option_map};
ghost use Rattle.raft_log_engine.specs.raft_log_engine_core.specs.Reads.{shows_of};
ghost use Rattle.raft_crash_examples.specs.Batches.{LoadsBoth, ReadsBoth, TriesBoth, TriesToWrite, WritesBothOrNeither};

use crate::changing::{KeyChange, add};
use crate::ending::{Crash, lose_power};
use crate::laws::lives_follow_the_model;
use crate::opening::open;
use log::Log;
use raft_log_engine::{
    Config, Engine, EnginePipes, FileSystem, LogBatch, LogEngine, PipeLog, Result,
};
use std::alloc::Global;
use std::thread::Threads;

/// The values of two keys.
#[derive(Drop)]
pub struct TwoValues {
    /// The value of the one.
    pub first: Option<Vec<u8>>,
    /// The value of the other.
    pub second: Option<Vec<u8>>,
}

/// Writes two changes in one batch, durably. Returns whether the write succeeded.
fn write_both<R: Log, P: PipeLog>(
    rt: &R,
    alloc: Global,
    engine: &mut LogEngine<P>,
    one: &KeyChange,
    other: &KeyChange,
) -> Result<bool>
    ensures ok { IfOk result (λ answered. TriesBoth one.now other.now answered
        (shows_of P.shown engine.old) (shows_of P.shown engine.new)) }
{
    let mut batch = LogBatch::default(alloc)?;
    add(alloc, &mut batch, one)?;
    add(alloc, &mut batch, other)?;
    let answered = engine.write(rt, &mut batch, true).is_ok();
    Ok(answered)
}

/// Reads the keys of two changes.
fn read_two<P: PipeLog>(
    engine: &LogEngine<P>,
    one: &KeyChange,
    other: &KeyChange,
) -> Result<TwoValues>
    ensures ok { IfOk result (λ found. ReadsBoth (shows_of P.shown engine.now) one.now other.now
        (option_map (λ bytes. bytes.items) found.first) (option_map (λ bytes. bytes.items) found.second)) }
{
    let first = engine.get(one.group, one.key.as_slice())?;
    let second = engine.get(other.group, other.key.as_slice())?;
    Ok(TwoValues { first, second })
}

/// Opens the log of these settings, and writes two changes in one batch, durably. Returns the engine, and whether the
/// write succeeded.
pub fn try_to_write<R: Threads + Log + Sync, F: FileSystem + Sync + Drop>(
    rt: &R,
    alloc: Global,
    config: Config,
    files: F,
    one: &KeyChange,
    other: &KeyChange,
) -> Result<(Engine<F>, bool)>
    ensures ok { IfOk result (λ tried. TriesToWrite F.disk F.tells_space config one.now other.now files tried.1
        (shows_of ⟦<EnginePipes<F> as PipeLog>⟧.shown tried.0)) }
{
    let mut engine = open(rt, alloc, config, files)?;
    let answered = write_both(rt, alloc, &mut engine, one, other)?;
    Ok((engine, answered))
}

/// Opens the log of these settings, and reads the keys of two changes.
pub fn load_both<R: Threads + Log + Sync, F: FileSystem + Sync + Drop>(
    rt: &R,
    alloc: Global,
    config: Config,
    files: F,
    one: &KeyChange,
    other: &KeyChange,
) -> Result<TwoValues>
    ensures ok { IfOk result (λ found. LoadsBoth F.disk F.tells_space config one.now other.now files
        (option_map (λ bytes. bytes.items) found.first) (option_map (λ bytes. bytes.items) found.second)) }
{
    let engine = open(rt, alloc, config, files)?;
    read_two(&engine, one, other)
}

/// Begins the log of these settings, writes two changes in one batch, which may fail, and loses power; `what` says what
/// that leaves. Then reads both keys with other settings. Returns whether the write succeeded, and what was read.
pub fn read_both<R: Threads + Log + Sync, F: FileSystem + Sync + Drop, C: Crash<F>>(
    rt: &R,
    alloc: Global,
    config: Config,
    files: F,
    one: &KeyChange,
    other: &KeyChange,
    what: &C,
    again: Config,
) -> Result<(bool, TwoValues)>
    ensures ok { IfOk result (λ read. WritesBothOrNeither F.disk F.tells_space config one.now other.now again files
        read.0 (option_map (λ bytes. bytes.items) read.1.first)
        (option_map (λ bytes. bytes.items) read.1.second)) }
{
    lives_follow_the_model::<F>();
    let (engine, answered) = try_to_write(rt, alloc, config, files, one, other)?;
    let left = lose_power(engine, what)?;
    let found = load_both(rt, alloc, again, left, one, other)?;
    Ok((answered, found))
}
