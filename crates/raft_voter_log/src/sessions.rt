//! Sessions in which running stores crash.

ghost use Rattle.raft_log_engine.specs.raft_log_engine_core.specs.Reads.{shows_of};
ghost use Rattle.raft_voter_log.specs.Sessions.{ForeignRecordsBreakPremise, RunsAskNothing};

use crate::{LogFiles, LogVoters};
use log::Log;
use raft_log_engine::{EnginePipes, MemoryFileSystem, Nobody, PipeLog};
use raft_voter::RoundService;
use raft_voter_world::{VoterDisk, VoterStorage};

/// Let a run start from files without a log, in which stores are opened, serve, are purged, have faults armed under
/// them, and crash. Each open succeeds, no log is copied, and a store is closed only at the end. Each crash hits a
/// store that hasn't failed, and only loses writes (`OnlyLoses`).
///
/// Then each opened store serves voters, no open loses them, and voters that never fail explain the rounds. This needs
/// no premise on CRC collisions.
pub fn runs_ask_nothing<R: Log>()
    ensures { RunsAskNothing ⟦<LogVoters as RoundService<R>>⟧.service ⟦<LogVoters as VoterStorage<R>>⟧.upkeep
        ⟦<LogFiles as VoterDisk<R, LogVoters>>⟧.disk (λ voters. voters.config)
        (λ voters. shows_of ⟦<EnginePipes<MemoryFileSystem, Nobody> as PipeLog>⟧.shown voters.store.engine) }
{}

/// Suppose that a crash of a running store leaves another record right after all that was written to an active file. No
/// unsynced write was asked to write it there. Then there is a CRC collision.
pub fn foreign_records_break_the_premise()
    ensures { ForeignRecordsBreakPremise }
{}
