//! Changes keys of a log, purges the log, and loses power.

ghost use Rattle.std.specs.Prelude.{IfOk, option_map};
ghost use Rattle.raft_log_engine.specs.raft_log_engine_core.specs.Reads.{shows_of};
ghost use Rattle.raft_crash_examples.specs.Purging.{KeepsTheMap, ReadsBehindPurges};

use crate::changing::KeyChange;
use crate::ending::{Crash, lose_power};
use crate::laws::lives_follow_the_model;
use crate::lives::change_keys;
use crate::saving::load;
use log::Log;
use raft_log_engine::{Config, FileSystem, LogEngine, PipeLog, Result};
use std::alloc::Global;
use std::thread::Threads;

/// A purge of a log, one for each call of an engine.
#[derive(Clone, Copy)]
pub enum Purge {
    /// Files that are past the thresholds of the settings.
    Expired,
    /// All of Append.
    Append,
    /// Rewrite.
    Rewrite,
    /// All stale files.
    Stale,
}

/// Purges a log. Returns whether that succeeded.
pub fn purge_once<L: Log, P: PipeLog>(rt: &L, engine: &mut LogEngine<P>, which: Purge) -> bool
    ensures { KeepsTheMap (shows_of P.shown engine.old) (shows_of P.shown engine.new) }
{
    match which {
        Purge::Expired => engine.purge_expired_files(rt).is_ok(),
        Purge::Append => engine.must_rewrite_append_queue(rt, None, None).is_ok(),
        Purge::Rewrite => engine.must_rewrite_rewrite_queue(rt).is_ok(),
        Purge::Stale => engine.must_purge_all_stale(rt).is_ok(),
    }
}

/// Runs one purge of a log after another, whichever of them succeed.
pub fn purge_all<L: Log, P: PipeLog>(rt: &L, engine: &mut LogEngine<P>, purges: &[Purge])
    ensures { KeepsTheMap (shows_of P.shown engine.old) (shows_of P.shown engine.new) }
{
    for which in purges {
        let _answered = purge_once(rt, engine, *which);
    }
}

/// Begins the log of these settings, changes keys in it, purges it, and loses power; `what` says what that leaves. Then
/// reads a key with other settings. Any purge may fail, at any point.
pub fn read_behind_purges<R: Threads + Log + Sync, F: FileSystem + Sync + Drop, C: Crash<F>>(
    rt: &R,
    alloc: Global,
    config: Config,
    files: F,
    changes: &[KeyChange],
    purges: &[Purge],
    what: &C,
    again: Config,
    group: u64,
    key: &[u8],
) -> Result<Option<Vec<u8>>>
    ensures ok { IfOk result (λ found. ReadsBehindPurges F.disk F.tells_space config changes.now again group key.now
        files (option_map (λ bytes. bytes.items) found)) }
{
    lives_follow_the_model::<F>();
    let mut engine = change_keys(rt, alloc, config, files, changes)?;
    purge_all(rt, &mut engine, purges);
    let left = lose_power(engine, what)?;
    load(rt, alloc, again, left, group, key)
}
