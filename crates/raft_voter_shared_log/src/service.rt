//! The store serves rounds. Between them it purges its files, and lists its voters.
ghost use Rattle.std.specs.Prelude.{◌≡◌};
ghost use Rattle.raft_log_dual_pipes.specs.HoldingBack.{PipesHoldBack};
ghost use Rattle.raft_log_record_base.specs.declared.pipe_log.LogQueue.TheVariants.{Append};
ghost use Rattle.raft_log_engine.specs.raft_log_engine_core.specs.Purging.{StopsPurgingExpired};
ghost use Rattle.raft_log_engine.specs.raft_log_engine_core.specs.Reads.{shows_of};
ghost use Rattle.raft_log_recovery_laws.specs.ByCalls.{home_of};
ghost use Rattle.raft_voter_outline.specs.Kept.{outlines_in};
ghost use Rattle.raft_voter_store.specs.Service.{service_in};
ghost use Rattle.raft_voter_shared_log.specs.ListedVoters.{FailsToList, ListsStored};
ghost use Rattle.raft_voter_shared_log.specs.Purging.{ForcesStore, PurgesStore, StepsStore, StopsForced};

use crate::forced::ForcedPurge;
use crate::store::LogStore;
use log::Log;
use raft_log_engine::{EnginePipes, Error, FileSystem, Nobody, PipeLog, PurgeStep};
use raft_voter::{Items, Reply, Request, RoundFault, RoundService, Voter};
use raft_voter_recovery::Unread;
use raft_voter_shared::{Listing, Maintenance};

impl<R: Log, F: FileSystem + Sync> RoundService<R> for LogStore<F> {
    ghost service = { service_in (λ store. home_of store.config)
        (λ store. shows_of ⟦<EnginePipes<F, Nobody> as PipeLog>⟧.shown store.store.engine)
        (λ store. outlines_in store.store.outlines) };

    fn serve(&mut self, rt: &R, requests: &[(u64, Request)]) -> Result<Items<Reply>, RoundFault> {
        self.store.serve(rt, requests)
    }
}

impl<R: Log, F: FileSystem + Sync> Maintenance<R> for LogStore<F> {
    type Refusal = Error;

    type Step = PurgeStep;

    type Purge = ForcedPurge;

    ghost purges = { λ groups old new. PurgesStore
        (PipesHoldBack ⟦<EnginePipes<F, Nobody> as PipeLog>⟧.shown
        ⟦<EnginePipes<F, Nobody> as PipeLog>⟧.holds_back Append)
        groups old.store.engine new.store.engine
        (shows_of ⟦<EnginePipes<F, Nobody> as PipeLog>⟧.shown old.store.engine)
        (shows_of ⟦<EnginePipes<F, Nobody> as PipeLog>⟧.shown new.store.engine) };

    ghost steps = { λ budget step old new. StepsStore
        (PipesHoldBack ⟦<EnginePipes<F, Nobody> as PipeLog>⟧.shown
        ⟦<EnginePipes<F, Nobody> as PipeLog>⟧.holds_back Append)
        budget step old.store.engine new.store.engine
        (shows_of ⟦<EnginePipes<F, Nobody> as PipeLog>⟧.shown old.store.engine)
        (shows_of ⟦<EnginePipes<F, Nobody> as PipeLog>⟧.shown new.store.engine) };

    ghost refuses = { λ error old new. StopsPurgingExpired
        (shows_of ⟦<EnginePipes<F, Nobody> as PipeLog>⟧.shown old.store.engine)
        (shows_of ⟦<EnginePipes<F, Nobody> as PipeLog>⟧.shown new.store.engine) error };

    ghost forces = { λ purge old new. ForcesStore purge new.store.engine.tables
        (shows_of ⟦<EnginePipes<F, Nobody> as PipeLog>⟧.shown old.store.engine)
        (shows_of ⟦<EnginePipes<F, Nobody> as PipeLog>⟧.shown new.store.engine) };

    ghost refuses_force = { λ purge error old new. StopsForced purge error
        (shows_of ⟦<EnginePipes<F, Nobody> as PipeLog>⟧.shown old.store.engine)
        (shows_of ⟦<EnginePipes<F, Nobody> as PipeLog>⟧.shown new.store.engine) };

    fn is_failed(&self) -> bool {
        self.store.is_failed()
    }

    fn maintain(&mut self, rt: &R) -> Result<Vec<u64>, Error> {
        match self.store.maintain(rt) {
            Ok(groups) => Ok(groups),
            Err(error) => Err(error),
        }
    }

    fn purge_some(&mut self, rt: &R, budget: u64) -> Result<PurgeStep, Error> {
        match self.store.purge_some(rt, budget) {
            Ok(step) => Ok(step),
            Err(error) => Err(error),
        }
    }

    fn force_purge(&mut self, rt: &R, purge: &ForcedPurge) -> Result<(), Error> {
        match *purge {
            ForcedPurge::RewriteAppend {
                watermark,
                exit_after_step,
            } => {
                match self
                    .store
                    .must_rewrite_append_queue(rt, watermark, exit_after_step)
                {
                    Ok(()) => Ok(()),
                    Err(error) => Err(error),
                }
            }
            ForcedPurge::RewriteRewrite => match self.store.must_rewrite_rewrite_queue(rt) {
                Ok(()) => Ok(()),
                Err(error) => Err(error),
            },
        }
    }
}

impl<R: Log, F: FileSystem + Sync> Listing<R> for LogStore<F> {
    type Unlisted = Unread;

    ghost lists = { λ voters store. ListsStored voters
        (shows_of ⟦<EnginePipes<F, Nobody> as PipeLog>⟧.shown store.store.engine) };

    ghost hides = { λ cause store. FailsToList cause
        (shows_of ⟦<EnginePipes<F, Nobody> as PipeLog>⟧.shown store.store.engine) };

    fn voters(&mut self, _rt: &R) -> Result<Vec<(u64, Voter)>, Unread> {
        match self.store.voters() {
            Ok(voters) => Ok(voters),
            Err(cause) => Err(cause),
        }
    }
}
