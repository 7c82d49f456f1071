//! Opens a log.

ghost use Rattle.std.specs.Prelude.{IfOk};
ghost use Rattle.raft_log_engine.specs.raft_log_engine_core.specs.Reads.{shows_of};
ghost use Rattle.raft_crash_examples.specs.Opening.{Opens};

use log::Log;
use raft_log_engine::{Config, Engine, EnginePipes, FileSystem, PipeLog, Result};
use std::alloc::Global;
use std::thread::Threads;

/// Opens the log of these settings. If that fails, the file system is dropped.
pub fn open<R: Threads + Log + Sync, F: FileSystem + Sync + Drop>(
    rt: &R,
    alloc: Global,
    config: Config,
    files: F,
) -> Result<Engine<F>>
    ensures ok { IfOk result (λ engine. Opens F.disk F.tells_space config files
        (shows_of ⟦<EnginePipes<F> as PipeLog>⟧.shown engine)) }
{
    match Engine::open_with_file_system(rt, alloc, config, files) {
        Ok(engine) => Ok(engine),
        Err(refused) => Err(refused.error),
    }
}
