//! Puts a key's value in a log without a sync, and loses power: it is there or it isn't, for good.

ghost use Rattle.std.specs.Prelude.{IfOk, option_map};
ghost use Rattle.raft_log_engine.specs.raft_log_engine_core.specs.Reads.{shows_of};
ghost use Rattle.raft_crash_examples.specs.Unsynced.{LoadsAndEnds, PutsUnsynced, StaysAsRead};

use crate::ending::{Crash, Ending, end, lose_power};
use crate::laws::lives_follow_the_model;
use crate::lives::{Life, live_on};
use crate::opening::open;
use crate::saving::{load, put};
use log::Log;
use raft_log_engine::{Config, Engine, EnginePipes, FileSystem, PipeLog, Result};
use std::alloc::Global;
use std::thread::Threads;

/// Opens the log of these settings, and puts a group's key in it, without a sync.
pub fn put_unsynced<R: Threads + Log + Sync, F: FileSystem + Sync + Drop>(
    rt: &R,
    alloc: Global,
    config: Config,
    files: F,
    group: u64,
    key: &[u8],
    value: &[u8],
) -> Result<Engine<F>>
    ensures ok { IfOk result (λ engine. PutsUnsynced F.disk F.tells_space config group key.now value.now files
        (shows_of ⟦<EnginePipes<F> as PipeLog>⟧.shown engine)) }
{
    let mut engine = open(rt, alloc, config, files)?;
    put(rt, alloc, &mut engine, group, key, value, false)?;
    Ok(engine)
}

/// Opens the log of these settings, reads a group's key from it, and ends the engine. Returns what was read, and what
/// the next open finds.
pub fn load_and_end<R: Threads + Log + Sync, F: FileSystem + Sync + Drop, C: Crash<F>>(
    rt: &R,
    alloc: Global,
    config: Config,
    files: F,
    group: u64,
    key: &[u8],
    ending: &Ending<C>,
) -> Result<(Option<Vec<u8>>, F)>
    ensures ok { IfOk result (λ read. LoadsAndEnds F.disk F.tells_space config group key.now ending.now files
        (option_map (λ bytes. bytes.items) read.0) read.1) }
{
    let engine = open(rt, alloc, config, files)?;
    let found = engine.get(group, key)?;
    let left = end(rt, engine, ending)?;
    Ok((found, left))
}

/// Begins the log of these settings, puts a group's key in it without a sync, loses power, and reads the key with other
/// settings. Then the log has more lives (`lives`), and the key is read once more. Returns what was read first and
/// last.
pub fn read_unsynced<R: Threads + Log + Sync, F: FileSystem + Sync + Drop, C: Crash<F>>(
    rt: &R,
    alloc: Global,
    config: Config,
    files: F,
    group: u64,
    key: &[u8],
    value: &[u8],
    what: &C,
    look: Config,
    ending: &Ending<C>,
    lives: &[Life<C>],
    last: Config,
) -> Result<(Option<Vec<u8>>, Option<Vec<u8>>)>
    ensures ok { IfOk result (λ read. StaysAsRead F.disk F.tells_space config group key.now value.now look
        ending.now lives.now last files (option_map (λ bytes. bytes.items) read.0)
        (option_map (λ bytes. bytes.items) read.1)) }
{
    lives_follow_the_model::<F>();
    let engine = put_unsynced(rt, alloc, config, files, group, key, value)?;
    let left = lose_power(engine, what)?;
    let (first, seen) = load_and_end(rt, alloc, look, left, group, key, ending)?;
    let behind = live_on(rt, alloc, seen, lives)?;
    let later = load(rt, alloc, last, behind, group, key)?;
    Ok((first, later))
}
