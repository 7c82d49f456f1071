//! Purges of a run.

ghost use Rattle.raft_log_engine.specs.raft_log_engine_core.specs.Reads.{shows_of};
ghost use Rattle.raft_voter_log.specs.Purges.{PurgesKeepOrFail, RefusedPurgesHaveReasons, RunsRefuseForReasons};

use crate::{LogFiles, LogVoters};
use log::Log;
use raft_log_engine::{EnginePipes, MemoryFileSystem, Nobody, PipeLog};
use raft_voter::RoundService;
use raft_voter_world::{VoterDisk, VoterStorage};

/// A purge in a run changes no voter, whether it succeeds or fails. If it leaves a store failed, a file call failed in
/// it, and its files store the same voters.
pub fn purges_keep_or_fail<R: Log>()
    ensures { PurgesKeepOrFail ⟦<LogVoters as VoterStorage<R>>⟧.upkeep
        (λ voters. shows_of ⟦<EnginePipes<MemoryFileSystem, Nobody> as PipeLog>⟧.shown voters.store.engine) }
{}

/// Why a purge of a store that keeps voters fails:
/// - `FileSystem`: a file call failed, an entry couldn't be read, a queue has its last file number, or the owed
///   tombstones are too long for a record
/// - `Memory`: memory ran out
///
/// It never fails with an invalid argument, with a group whose contents are too long, or for a file that isn't of its
/// queue.
pub fn refused_purges_have_reasons<R: Log>()
    ensures { RefusedPurgesHaveReasons ⟦<LogVoters as VoterStorage<R>>⟧.upkeep
        (λ voters. shows_of ⟦<EnginePipes<MemoryFileSystem, Nobody> as PipeLog>⟧.shown voters.store.engine) }
{}

/// The same for each purge that fails in a run, if each store that the run opened served voters. A store that had
/// failed before returns `Failed`.
pub fn runs_refuse_for_reasons<R: Log>()
    ensures { RunsRefuseForReasons ⟦<LogVoters as RoundService<R>>⟧.service ⟦<LogVoters as VoterStorage<R>>⟧.upkeep
        ⟦<LogFiles as VoterDisk<R, LogVoters>>⟧.disk (λ voters. voters.config)
        (λ voters. shows_of ⟦<EnginePipes<MemoryFileSystem, Nobody> as PipeLog>⟧.shown voters.store.engine) }
{}
