//! A caller of `raft_log_open`: counts what an open reads from a log's Rewrite files.

ghost use Rattle.std.specs.Prelude.{IfErr, IfOk};
ghost use Rattle.raft_log_open.specs.Opening.{FailsToOpenDirectory};
ghost use Rattle.raft_log_open.specs.Reading.{BringsInRewrite};

use log::Log;
use raft_log_dual_pipes::OpenRefused;
use raft_log_file_settings::Config;
use raft_log_fs::FileSystem;
use raft_log_open::open_directory;
use raft_log_replay::ReplayThreads;
use std::alloc::Global;
use std::thread::Threads;

/// Opens the log of these settings and drops it. Returns how many entries and values were read from its Rewrite files.
pub fn count_brought<R: Threads + Log + Sync, F: FileSystem + Sync + Drop>(
    rt: &R,
    alloc: Global,
    config: Config,
    files: F,
) -> Result<u64, OpenRefused<F>>
    ensures ok { IfOk result (BringsInRewrite config (F.disk files)) }
    ensures err { IfErr result (λ refused. FailsToOpenDirectory F.disk F.tells_space config refused.error
        files refused.file_system) }
{
    let log = open_directory(rt, alloc, ReplayThreads::Rayon, config, files)?;
    Ok(log.written)
}
