//! Begins a log, saves a key's value in it, and loses power.

ghost use Rattle.std.specs.Prelude.{IfOk, option_map};
ghost use Rattle.raft_crash_examples.specs.Crashing.{SavesAcrossACrash};

use crate::ending::lose_power;
use crate::laws::lives_follow_the_model;
use crate::saving::{load, save};
use log::Log;
use raft_log_engine::{Config, FileSystem, MemoryFileSystem, Remainder, Result};
use std::alloc::Global;
use std::thread::Threads;

/// Begins the log of these settings, saves a group's key in it, and loses power; `what` says what that leaves. Then
/// reads the key with other settings, with any number of recovery workers.
pub fn save_across_a_crash<R: Threads + Log + Sync>(
    rt: &R,
    alloc: Global,
    config: Config,
    again: Config,
    what: &Remainder,
    group: u64,
    key: &[u8],
    value: &[u8],
) -> Result<Option<Vec<u8>>>
    ensures ok { IfOk result (λ found. SavesAcrossACrash ⟦<MemoryFileSystem as FileSystem>⟧.disk
        ⟦<MemoryFileSystem as FileSystem>⟧.tells_space config again group key.now value.now
        (option_map (λ bytes. bytes.items) found)) }
{
    lives_follow_the_model::<MemoryFileSystem>();
    let files = MemoryFileSystem::new(alloc);
    let engine = save(rt, alloc, config, files, group, key, value)?;
    let left = lose_power(engine, what)?;
    load(rt, alloc, again, left, group, key)
}
