//! Copies a store's log.
ghost use Rattle.std.specs.Prelude.{◌≡◌, [], map, IfErr, IfOk};
ghost use Rattle.std.specs.String.{string_bytes};
ghost use Rattle.raft_log_engine.specs.raft_log_file_settings.specs.Settings.{settings_of};
ghost use Rattle.raft_log_engine.specs.raft_log_offline.specs.Forks.{FailsToFork, Forks};

use super::LogVoterStore;
use log::Log;
use raft_log_engine::{Config, CopyDetails, EnginePipes, FileSystem, Nobody, Result, fork};
use std::alloc::Global;

impl<F: FileSystem + Sync> LogVoterStore<EnginePipes<F, Nobody>> {
    /// Copies the log of a store that nobody has open, as named by these settings, into a directory, which is created
    /// if it doesn't exist. Returns the paths of the copies, each of which is synced. A store that is opened over the
    /// copy has the voters of its source (`raft_voter_log`).
    ///
    /// If it fails, for any reason, the source is unchanged.
    ///
    /// # Errors
    ///
    /// With these nothing was changed:
    /// - `InvalidArgument`: the settings recycle files, or have the recovery mode `TolerateAnyCorruption`.
    /// - `InvalidArgument`: the target is one of the source's directories, is inside one, or has log files.
    /// - `Other`: the settings have a fault.
    /// - `Io`: the file system has stopped, or a directory of the source doesn't exist.
    /// - `Corruption`: a file in it is misnamed.
    /// - `Memory`, as long as nothing was copied.
    ///
    /// After a later `Io` or `Memory`, what was copied stays.
    pub fn fork<L: Log>(
        rt: &L,
        alloc: Global,
        source: &Config,
        file_system: &mut F,
        target: &str,
    ) -> Result<CopyDetails>
        ensures ok { IfOk result (λ details. Forks (settings_of source.now) target.now
            (map string_bytes details.copied.items) (F.disk file_system.old) (F.disk file_system.new)) }
        ensures linked { IfOk result (λ details. details.symlinked.items ≡ []) }
        ensures err { IfErr result (λ error. FailsToFork (settings_of source.now) target.now error
            (F.disk file_system.old) (F.disk file_system.new)) }
    {
        fork(rt, alloc, source, file_system, target)
    }
}
