//! An open store of voters on a log.
ghost use Rattle.std.specs.Prelude.{◌≡◌, ◌≤◌, length, IfErr, IfOk, OnOk};
ghost use Rattle.raft_log_engine.specs.raft_log_engine_core.specs.Reads.{shows_of};
ghost use Rattle.raft_log_dual_pipes.specs.HoldingBack.{PipesHoldBack};
ghost use Rattle.raft_log_recovery_laws.specs.ByCalls.{home_of};
ghost use Rattle.raft_log_record_base.specs.declared.pipe_log.LogQueue.TheVariants.{Append};
ghost use Rattle.raft_voter_outline.specs.Kept.{outlines_in};
ghost use Rattle.raft_voter_store.specs.Service.{service_in};
ghost use Rattle.raft_voter_log.specs.Instance.{log_upkeep};

use crate::causes::{purge_cause, unread_cause};
use crate::faults::fault_of;
use log::Log;
use raft_log_engine::{Config, EnginePipes, FileSystem, MemoryFileSystem, Nobody, PipeLog};
use raft_voter::{Cause, Items, Memory, Reply, Request, RoundFault, RoundService, Voter};
use raft_voter_store::VoterStore;
use raft_voter_world::{Fault, Purge, VoterStorage};
use std::alloc::Global;

/// A store of voters on a log in a file system in memory, and the settings that name the log.
#[derive(Drop)]
pub struct LogVoters {
    /// The settings.
    pub(crate) config: Config,
    /// The store.
    pub(crate) store: VoterStore<MemoryFileSystem>,
}

impl<R: Log> RoundService<R> for LogVoters {
    ghost service = { service_in (λ voters. home_of voters.config)
        (λ voters. shows_of ⟦<EnginePipes<MemoryFileSystem, Nobody> as PipeLog>⟧.shown voters.store.engine)
        (λ voters. outlines_in voters.store.outlines) };

    fn serve(&mut self, rt: &R, requests: &[(u64, Request)]) -> Result<Items<Reply>, RoundFault> {
        self.store.serve(rt, requests)
    }
}

impl<R: Log> VoterStorage<R> for LogVoters {
    ghost upkeep = { log_upkeep
        (λ voters. ⟦<EnginePipes<MemoryFileSystem, Nobody> as PipeLog>⟧.files voters.store.engine.pipes)
        (PipesHoldBack ⟦<EnginePipes<MemoryFileSystem, Nobody> as PipeLog>⟧.shown
        ⟦<EnginePipes<MemoryFileSystem, Nobody> as PipeLog>⟧.holds_back Append)
        (λ voters. voters.store.engine)
        (λ voters. shows_of ⟦<EnginePipes<MemoryFileSystem, Nobody> as PipeLog>⟧.shown voters.store.engine) };

    fn is_failed(&self) -> bool {
        self.store.is_failed()
    }

    fn has_stopped(&self) -> bool {
        self.store.file_system().has_stopped()
    }

    fn voters(&mut self, _rt: &R, _alloc: Global) -> Result<Vec<(u64, Voter)>, Cause> {
        match self.store.voters() {
            Ok(voters) => Ok(voters),
            Err(cause) => Err(unread_cause(&cause)),
        }
    }

    fn purge(&mut self, rt: &R, purge: Purge) -> Result<(), Cause> {
        let failed = self.store.is_failed();
        match purge {
            Purge::Expired => match self.store.maintain(rt) {
                Ok(_) => Ok(()),
                Err(error) => Err(purge_cause(failed, &error)),
            },
            Purge::RewriteAppend => match self.store.must_rewrite_append_queue(rt, None, None) {
                Ok(()) => Ok(()),
                Err(error) => Err(purge_cause(failed, &error)),
            },
            Purge::RewriteRewrite => match self.store.must_rewrite_rewrite_queue(rt) {
                Ok(()) => Ok(()),
                Err(error) => Err(purge_cause(failed, &error)),
            },
        }
    }

    fn arm(&mut self, fault: &Fault) -> Result<(), Memory> {
        if self.store.file_system().has_stopped() {
            return Ok(());
        }
        match self.store.arm(&fault_of(fault)) {
            Ok(()) => Ok(()),
            Err(_) => Err(Memory),
        }
    }
}
