//! The lives of a log: one in which two threads share its engine, and one in which it is opened again.

ghost use Rattle.std.specs.Prelude.{◌≡◌, IfOk};
ghost use Rattle.raft_log_engine.specs.raft_log_engine_core.specs.Reads.{shows_of};
ghost use Rattle.raft_log_recovery_laws.specs.Bare.{IsBare};
ghost use Rattle.raft_log_recovery_laws.specs.ByCalls.{home_of};
ghost use Rattle.raft_log_shared_examples.specs.Lives.{ClosesLogs, FindsBoth, LeavesBoth, OpensResting};

use crate::sharing::{Shared, share};
use log::Log;
use raft_log_engine::{Closed, Config, Engine, EnginePipes, FileSystem, LogBatch, PipeLog, Result};
use raft_log_recovery_laws::closed::{closed_files_meet_the_premise, successful_closes_are_proper};
use raft_log_world_engine::laws::opens_follow_the_model;
use std::alloc::Global;
use std::sync::Wait;
use std::thread::Threads;

/// What is left of an engine that two threads shared, after its log was closed.
#[derive(Drop)]
pub struct Left<F> {
    /// The file system.
    pub files: F,
    /// What the first thread's write returned.
    pub first: Result<usize>,
    /// What the second thread's write returned.
    pub second: Result<usize>,
}

/// An engine of a log's second life, and what the writes of its first life returned.
#[derive(Drop)]
pub struct Again<F: FileSystem> {
    /// The engine.
    pub engine: Engine<F>,
    /// What the first thread's write returned.
    pub first: Result<usize>,
    /// What the second thread's write returned.
    pub second: Result<usize>,
}

/// Opens the log of these settings. If that fails, the file system is dropped.
pub fn open<R: Threads + Log + Sync, F: FileSystem + Sync + Drop>(
    rt: &R,
    alloc: Global,
    config: Config,
    files: F,
) -> Result<Engine<F>>
    ensures { IfOk result (λ engine. OpensResting config (F.disk files)
        (shows_of ⟦<EnginePipes<F> as PipeLog>⟧.shown engine)) }
{
    opens_follow_the_model::<F, ()>();
    match Engine::open_with_file_system(rt, alloc, config, files) {
        Ok(engine) => Ok(engine),
        Err(refused) => Err(refused.error),
    }
}

/// Opens the log of these settings. Two threads share the engine, and each writes a batch with a sync. Then the log is
/// closed. Returns the file system, and what the writes returned, if the close succeeds.
pub fn live<R: Threads + Wait + Log + Send + Sync, F: FileSystem + Send + Sync + Drop>(
    rt: &R,
    alloc: Global,
    config: Config,
    files: F,
    one: LogBatch,
    other: LogBatch,
) -> Result<Left<F>>
    ensures { IfOk result (λ left. IsBare config (F.disk files)
        → LeavesBoth config (one, left.first) (other, left.second) (F.disk left.files)) }
{
    let engine = open(rt, alloc, config, files)?;
    let shared = share(rt, alloc, engine, one, other)?;
    close(rt, shared)
}

/// Closes the log of an engine that isn't shared any more.
fn close<R: Log, F: FileSystem + Sync + Drop>(
    rt: &R,
    shared: Shared<EnginePipes<F>>,
) -> Result<Left<F>>
    ensures closes { IfOk result (λ left.
        ClosesLogs (shows_of ⟦<EnginePipes<F> as PipeLog>⟧.shown shared.engine) (F.disk left.files)) }
    ensures first { IfOk result (λ left. left.first ≡ shared.first) }
    ensures second { IfOk result (λ left. left.second ≡ shared.second) }
{
    successful_closes_are_proper();
    closed_files_meet_the_premise();
    let Shared {
        engine,
        first,
        second,
    } = shared;
    let Closed { files, result } = engine.close(rt);
    match result {
        Ok(()) => Ok(Left {
            files,
            first,
            second,
        }),
        Err(error) => Err(error),
    }
}

/// Does what `live` does, and opens the log again, with settings that may be others.
pub fn live_twice<R: Threads + Wait + Log + Send + Sync, F: FileSystem + Send + Sync + Drop>(
    rt: &R,
    alloc: Global,
    files: F,
    config: Config,
    again: Config,
    one: LogBatch,
    other: LogBatch,
) -> Result<Again<F>>
    ensures { IfOk result (λ twice. IsBare config (F.disk files) → home_of again ≡ home_of config
        → FindsBoth (home_of config) (one, twice.first) (other, twice.second)
        (shows_of ⟦<EnginePipes<F> as PipeLog>⟧.shown twice.engine)) }
{
    let Left {
        files,
        first,
        second,
    } = live(rt, alloc, config, files, one, other)?;
    let engine = open(rt, alloc, again, files)?;
    Ok(Again {
        engine,
        first,
        second,
    })
}
