//! Lives of a log: it is opened, keys are changed durably, and it crashes or is closed.

ghost use Rattle.std.specs.Prelude.{◌≡◌, IfOk, option_map};
ghost use Rattle.raft_log_engine.specs.raft_log_engine_core.specs.Reads.{shows_of};
ghost use Rattle.raft_log_recovery_laws.specs.ByCalls.{home_of};
ghost use Rattle.raft_crash_examples.specs.Lives.{LivesOn, LivesOnce, OpensAndChanges, ReadsTheFold};

use crate::changing::{KeyChange, write_changes};
use crate::ending::{Crash, Ending, end};
use crate::laws::lives_follow_the_model;
use crate::opening::open;
use crate::saving::load;
use log::Log;
use raft_log_engine::{Config, Engine, EnginePipes, FileSystem, PipeLog, Result};
use std::alloc::Global;
use std::thread::Threads;

/// A life of a log: the settings with which it is opened, with any number of workers; the changes that are written,
/// each durably; and how it ends.
#[derive(Drop)]
pub struct Life<C> {
    /// The settings.
    pub config: Config,
    /// The changes.
    pub changes: Vec<KeyChange>,
    /// How it ends.
    pub ending: Ending<C>,
}

/// A copy of the settings.
fn copy_settings(config: &Config) -> Result<Config>
    ensures { IfOk result (λ copy. home_of copy ≡ home_of config.now) }
{
    Ok(config.clone()?)
}

/// Opens the log of these settings, and changes keys in it.
pub fn change_keys<R: Threads + Log + Sync, F: FileSystem + Sync + Drop>(
    rt: &R,
    alloc: Global,
    config: Config,
    files: F,
    changes: &[KeyChange],
) -> Result<Engine<F>>
    ensures ok { IfOk result (λ engine. OpensAndChanges F.disk F.tells_space config changes.now files
        (shows_of ⟦<EnginePipes<F> as PipeLog>⟧.shown engine)) }
{
    let mut engine = open(rt, alloc, config, files)?;
    write_changes(rt, alloc, &mut engine, changes)?;
    Ok(engine)
}

/// Lives one life.
pub fn live<R: Threads + Log + Sync, F: FileSystem + Sync + Drop, C: Crash<F>>(
    rt: &R,
    alloc: Global,
    files: F,
    life: &Life<C>,
) -> Result<F>
    ensures ok { IfOk result (λ left. LivesOnce F.disk F.tells_space life.now files left) }
{
    let config = copy_settings(&life.config)?;
    let engine = change_keys(rt, alloc, config, files, life.changes.as_slice())?;
    end(rt, engine, &life.ending)
}

/// Lives one life after another.
pub fn live_on<R: Threads + Log + Sync, F: FileSystem + Sync + Drop, C: Crash<F>>(
    rt: &R,
    alloc: Global,
    files: F,
    lives: &[Life<C>],
) -> Result<F>
    ensures ok { IfOk result (λ left. LivesOn F.disk F.tells_space lives.now files left) }
{
    let mut current = files;
    for life in lives {
        let left = live(rt, alloc, current, life)?;
        current = left;
    }
    Ok(current)
}

/// Lives one life after another, and reads a key from the log that they left.
pub fn read_behind_lives<R: Threads + Log + Sync, F: FileSystem + Sync + Drop, C: Crash<F>>(
    rt: &R,
    alloc: Global,
    files: F,
    lives: &[Life<C>],
    last: Config,
    group: u64,
    key: &[u8],
) -> Result<Option<Vec<u8>>>
    ensures ok { IfOk result (λ found. ReadsTheFold F.disk F.tells_space lives.now last group key.now files
        (option_map (λ bytes. bytes.items) found)) }
{
    lives_follow_the_model::<F>();
    let left = live_on(rt, alloc, files, lives)?;
    load(rt, alloc, last, left, group, key)
}
