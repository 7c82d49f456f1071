//! Saves a key's value in a log, and reads it back.

ghost use Rattle.std.specs.Prelude.{IfOk, option_map};
ghost use Rattle.raft_log_examples.specs.Saving.{SavesInLog};

use log::Log;
use raft_log_engine::{Config, Engine, FileSystem, LogBatch, Result};
use std::alloc::Global;
use std::io::Print;
use std::thread::Threads;

/// Opens the log of these settings, saves a group's key in it with a sync, reads the key back, and closes the log.
/// Returns the value that was read, and the file system. All of the log is durable then.
///
/// If a call fails, returns its error, and drops the file system.
pub fn save_in_log<R: Threads + Log + Sync, F: FileSystem + Sync + Drop>(
    rt: &R,
    alloc: Global,
    config: Config,
    files: F,
    group: u64,
    key: &[u8],
    value: &[u8],
) -> Result<(Option<Vec<u8>>, F)>
    ensures ok { IfOk result (λ saved. SavesInLog F.disk F.tells_space config group key.now value.now
        files saved.1 (option_map (λ bytes. bytes.items) saved.0)) }
{
    let mut engine = match Engine::open_with_file_system(rt, alloc, config, files) {
        Ok(engine) => engine,
        Err(refused) => return Err(refused.error),
    };
    let mut batch = LogBatch::default(alloc)?;
    batch.put(alloc, group, key, value)?;
    engine.write(rt, &mut batch, true)?;
    let found = engine.get(group, key)?;
    let closed = engine.close(rt);
    closed.result?;
    Ok((found, closed.files))
}

/// Saves a key's value in the log in a directory, over these files, and prints what is then read of the key.
pub fn save_and_print<R: Threads + Log + Sync + Print + AllocGlobal, F: FileSystem + Sync + Drop>(
    rt: &R,
    directory: &str,
    files: F,
) -> anyhow::Result<()> {
    let dir = String::from_str(rt.alloc(), directory)?;
    let mut config = Config::default(rt.alloc());
    config.dir = dir;
    let (found, _files) = save_in_log(rt, rt.alloc(), config, files, 1, b"key", b"value")?;
    println!(rt; "group 1, key: {found:?}")?;
    Ok(())
}
