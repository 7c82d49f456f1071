//! A log that is opened and closed again and again, and whose closes succeed: its contracts have no premise on CRC
//! collisions.

ghost use Rattle.std.specs.Prelude.{IfOk, option_map};
ghost use Rattle.raft_crash_examples.specs.Reopening.{ChangesAndCloses, ReadsAllChanges};

use crate::changing::KeyChange;
use crate::laws::lives_follow_the_model;
use crate::lives::change_keys;
use crate::saving::load;
use log::Log;
use raft_log_engine::{Config, FileSystem, Result};
use std::alloc::Global;
use std::thread::Threads;

/// Opens the log of these settings, changes keys in it, and closes it. Returns the file system if the close succeeds.
pub fn change_and_close<R: Threads + Log + Sync, F: FileSystem + Sync + Drop>(
    rt: &R,
    alloc: Global,
    config: Config,
    files: F,
    changes: &[KeyChange],
) -> Result<F>
    ensures ok { IfOk result (λ left. ChangesAndCloses F.disk F.tells_space config changes.now files left) }
{
    let engine = change_keys(rt, alloc, config, files, changes)?;
    let closed = engine.close(rt);
    closed.result?;
    Ok(closed.files)
}

/// Lives two lives of a log, each an open, changes and a close. Then opens it again, and reads a key.
pub fn read_behind_two_closes<R: Threads + Log + Sync, F: FileSystem + Sync + Drop>(
    rt: &R,
    alloc: Global,
    files: F,
    first: Config,
    before: &[KeyChange],
    second: Config,
    after: &[KeyChange],
    last: Config,
    group: u64,
    key: &[u8],
) -> Result<Option<Vec<u8>>>
    ensures ok { IfOk result (λ found. ReadsAllChanges F.disk first second last before.now after.now group
        key.now files (option_map (λ bytes. bytes.items) found)) }
{
    lives_follow_the_model::<F>();
    let left = change_and_close(rt, alloc, first, files, before)?;
    let again = change_and_close(rt, alloc, second, left, after)?;
    load(rt, alloc, last, again, group, key)
}
