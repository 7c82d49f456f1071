//! Stores whose logs are closed properly: an open finds their voters, without a premise on CRC collisions.

ghost use Rattle.raft_log_engine.specs.raft_log_engine_core.specs.Reads.{shows_of};
ghost use Rattle.raft_voter_log.specs.ClosedRuns.{ClosedRunsAskNothing};
ghost use Rattle.raft_voter_log.specs.ClosedStores.{ClosedStoresAreFound, ClosedStoresMeetThePremise, RestingVotersAskNothing};

use crate::{LogFiles, LogVoters};
use log::Log;
use raft_log_engine::{EnginePipes, MemoryFileSystem, Nobody, PipeLog};
use raft_log_fs::FileSystem;
use raft_voter::RoundService;
use raft_voter_world::{VoterDisk, VoterStorage};

/// If a log at rest stores voters, there is no CRC collision in its files: neither as they are nor in what a crash
/// leaves of them.
pub fn resting_voters_ask_nothing()
    ensures { RestingVotersAskNothing }
{}

/// If the log of a running store is closed properly, there is no CRC collision in its files: neither as they are nor in
/// what a crash leaves of them.
pub fn closed_stores_meet_the_premise()
    ensures { ClosedStoresMeetThePremise }
{}

/// An open of a log that a store closed properly finds the voters that the store kept. There may be a crash between the
/// close and the open. All settings that name the directories find them.
pub fn closed_stores_are_found<F: FileSystem>()
    ensures { ClosedStoresAreFound F.disk F.tells_space }
{}

/// Let a run start from files without a log, in which these happen:
/// - Stores are opened, serve, are purged, have faults armed under them, are closed, and crash. Each open succeeds.
/// - A store that is closed hasn't failed, and no file call fails in the close. The run may end with any close.
/// - A crash of an open store, which hasn't failed, only loses writes (`OnlyLoses`).
/// - While no store is open, faults are armed, logs are copied, and a crash may leave anything.
///
/// Then each opened store serves voters, no open loses them, and voters that never fail explain the rounds. This needs
/// no premise on CRC collisions.
pub fn closed_runs_ask_nothing<R: Log>()
    ensures { ClosedRunsAskNothing ⟦<LogVoters as RoundService<R>>⟧.service
        ⟦<LogVoters as VoterStorage<R>>⟧.upkeep ⟦<LogFiles as VoterDisk<R, LogVoters>>⟧.disk
        (λ voters. voters.config)
        (λ voters. shows_of ⟦<EnginePipes<MemoryFileSystem, Nobody> as PipeLog>⟧.shown voters.store.engine) }
{}
