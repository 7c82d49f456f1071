//! A caller of `raft_log_offline`: backs up a log.

ghost use Rattle.std.specs.Prelude.{IfErr, IfOk};
ghost use Rattle.raft_log_file_settings.specs.Settings.{settings_of};
ghost use Rattle.raft_log_offline.specs.Forks.{FailsToFork};
ghost use Rattle.raft_examples.specs.Fork.{BacksUp};

use log::Log;
use raft_log_file_settings::Config;
use raft_log_fs::FileSystem;
use raft_log_offline::fork;
use raft_log_record_base::Result;
use std::alloc::Global;

/// Copies the log of these settings, which nobody has open, into a directory. Returns how many files the copy has.
pub fn back_up<F: FileSystem, L: Log>(
    rt: &L,
    alloc: Global,
    config: &Config,
    file_system: &mut F,
    target: &str,
) -> Result<usize>
    ensures ok { IfOk result (λ count. BacksUp (settings_of config.now) target.now count
        (F.disk file_system.old) (F.disk file_system.new)) }
    ensures err { IfErr result (λ error. FailsToFork (settings_of config.now) target.now error
        (F.disk file_system.old) (F.disk file_system.new)) }
{
    let details = fork(rt, alloc, config, file_system, target)?;
    Ok(details.copied.len())
}
