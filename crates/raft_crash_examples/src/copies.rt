//! Copies a log that no engine has open, and reads a key from the copy.

ghost use Rattle.std.specs.Prelude.{IfOk, option_map};
ghost use Rattle.raft_crash_examples.specs.Copies.{LoadsCopy};

use crate::saving::load;
use log::Log;
use raft_log_engine::{Config, FileSystem, Result, fork};
use std::alloc::Global;
use std::thread::Threads;

/// Copies the log of these settings into a directory, and reads a key from the copy, with settings of its own.
pub fn load_copy<R: Threads + Log + Sync, F: FileSystem + Sync + Drop>(
    rt: &R,
    alloc: Global,
    config: &Config,
    files: F,
    target: &str,
    to: Config,
    group: u64,
    key: &[u8],
) -> Result<Option<Vec<u8>>>
    ensures ok { IfOk result (λ found. LoadsCopy F.disk F.tells_space config.now target.now to group key.now files
        (option_map (λ bytes. bytes.items) found)) }
{
    let mut current = files;
    fork(rt, alloc, config, &mut current, target)?;
    load(rt, alloc, to, current, group, key)
}
