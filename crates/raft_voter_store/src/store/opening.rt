//! Opens a store over its log, and lists its voters.
ghost use Rattle.std.specs.Prelude.{◌≡◌, IfErr, IfOk};
ghost use Rattle.raft_log_engine.specs.raft_log_engine_core.specs.Reads.{shows_of};
ghost use Rattle.raft_log_engine.specs.raft_log_engine_laws.specs.Fetching.{StaysButBlock};
ghost use Rattle.raft_voter_outline.specs.Kept.{outlines_in};
ghost use Rattle.raft_voter_recovery.specs.Reading.{IsUnreadFor, ListsVoters};
ghost use Rattle.raft_voter_store.specs.Counting.{no_work};
ghost use Rattle.raft_voter_store.specs.Opening.{FailsToOpenVoters, OpensVoters};

use super::LogVoterStore;
use crate::counters::WorkCounters;
use log::Log;
use raft_log_engine::{
    Config, EnginePipes, Error, EventListener, FileSystem, LogEngine, Nobody, PipeLog,
    ReplayThreads,
};
use raft_voter::Voter;
use raft_voter_recovery::{Unread, read_outlines, read_voters};
use std::alloc::Global;
use std::thread::Threads;

/// A store as it is opened over a file system: a [`LogVoterStore`] whose pipes call a listener, and the engine's own
/// hook.
pub type VoterStore<F, E = Nobody> = LogVoterStore<EnginePipes<F, E>>;

/// Opening a store failed.
#[derive(Drop)]
pub struct StoreRefused<F> {
    /// The cause: the engine's error, a group whose contents aren't a voter, or out of memory.
    pub cause: Unread,
    /// The file system, which is returned.
    pub file_system: F,
}

impl<F: FileSystem + Sync, E: EventListener> LogVoterStore<EnginePipes<F, E>> {
    /// Opens the store whose log these settings name, over a file system, which the store owns from then on. Each
    /// group's voter is the one in the log. It opens the log as an engine does, with the listener. Then it reads the
    /// outlines of its voters from the log, one group at a time. It keeps no more of each entry than its term.
    ///
    /// If it fails, the file system is returned, and the store may be opened again.
    ///
    /// # Errors
    /// - `Engine` as opening an engine fails, except for `Memory`, or if an entry isn't read.
    /// - `Foreign` with a group whose contents aren't a voter.
    /// - `Memory`.
    pub fn open<R: Threads + Log + Sync>(
        rt: &R,
        alloc: Global,
        config: Config,
        file_system: F,
        listener: E,
    ) -> Result<Self, StoreRefused<F>>
        ensures ok { IfOk result (λ store. OpensVoters F.disk F.tells_space config file_system
            (shows_of ⟦<EnginePipes<F, E> as PipeLog>⟧.shown store.engine) (outlines_in store.outlines)) }
        ensures work { IfOk result (λ store. store.work ≡ no_work) }
        ensures err { IfErr result (λ refused. FailsToOpenVoters F.disk F.tells_space config refused.cause
            file_system refused.file_system) }
    {
        Self::open_by(
            rt,
            alloc,
            ReplayThreads::Rayon,
            config,
            file_system,
            listener,
        )
    }

    /// Opens the store as `open` does, but reads its log with scoped threads: one for each chunk of both queues,
    /// however many processors there are.
    ///
    /// Fails as `open` does.
    pub fn open_scoped<R: Threads + Log + Sync>(
        rt: &R,
        alloc: Global,
        config: Config,
        file_system: F,
        listener: E,
    ) -> Result<Self, StoreRefused<F>>
        ensures ok { IfOk result (λ store. OpensVoters F.disk F.tells_space config file_system
            (shows_of ⟦<EnginePipes<F, E> as PipeLog>⟧.shown store.engine) (outlines_in store.outlines)) }
        ensures work { IfOk result (λ store. store.work ≡ no_work) }
        ensures err { IfErr result (λ refused. FailsToOpenVoters F.disk F.tells_space config refused.cause
            file_system refused.file_system) }
    {
        Self::open_by(
            rt,
            alloc,
            ReplayThreads::Scoped,
            config,
            file_system,
            listener,
        )
    }

    /// Opens the store as `open` does, and reads its log with these threads.
    ///
    /// Fails as `open` does.
    pub fn open_by<R: Threads + Log + Sync>(
        rt: &R,
        alloc: Global,
        threads: ReplayThreads,
        config: Config,
        file_system: F,
        listener: E,
    ) -> Result<Self, StoreRefused<F>>
        ensures ok { IfOk result (λ store. OpensVoters F.disk F.tells_space config file_system
            (shows_of ⟦<EnginePipes<F, E> as PipeLog>⟧.shown store.engine) (outlines_in store.outlines)) }
        ensures work { IfOk result (λ store. store.work ≡ no_work) }
        ensures err { IfErr result (λ refused. FailsToOpenVoters F.disk F.tells_space config refused.cause
            file_system refused.file_system) }
    {
        let mut engine = match LogEngine::open_by(
            rt,
            alloc,
            threads,
            config,
            file_system,
            listener,
        ) {
            Ok(engine) => engine,
            Err(refused) => {
                return Err(StoreRefused {
                    cause: Unread::from_refusal(refused.error),
                    file_system: refused.file_system,
                });
            }
        };
        match read_outlines(alloc, &mut engine) {
            Ok(outlines) => Ok(LogVoterStore {
                alloc,
                engine,
                outlines,
                batch: None,
                work: WorkCounters::new(),
            }),
            Err(cause) => {
                let file_system = engine.close(rt).files;
                Err(StoreRefused { cause, file_system })
            }
        }
    }
}

impl<P: PipeLog> LogVoterStore<P> {
    ghost use Rattle.std.specs.Prelude.{true, Err};
    ghost use Rattle.raft_log_record_base.specs.declared.errors.Error.TheVariants as errors;
    ghost use Rattle.raft_log_engine.specs.raft_log_engine_laws.specs.EngineState.{has_failed};
    ghost use Rattle.raft_voter_recovery.specs.declared.unread.Unread.TheVariants as unread;

    /// The stored voters, each with its group, sorted by group. Reads their entries from the log. Nothing changes
    /// except the block that the engine caches.
    ///
    /// # Errors
    /// - `Engine` with `Failed` if the engine has failed. Then nothing is read.
    /// - `Engine` with another error if an entry isn't read.
    /// - `Foreign` with a group whose contents aren't a voter.
    /// - `Memory`.
    pub fn voters(&mut self) -> Result<Vec<(u64, Voter)>, Unread>
        ensures ok { IfOk result (λ voters. ListsVoters (shows_of P.shown self.old.engine) voters.items) }
        ensures err { IfErr result (λ cause. IsUnreadFor cause (shows_of P.shown self.old.engine)) }
        ensures failed { has_failed (shows_of P.shown self.old.engine) ≡ true
            → result ≡ Err (unread.Engine errors.Failed) }
        ensures stays { StaysButBlock
            (shows_of P.shown self.old.engine) (shows_of P.shown self.new.engine) }
        ensures outlines { self.new.outlines ≡ self.old.outlines }
        ensures work { self.new.work ≡ self.old.work }
    {
        if self.engine.is_failed() {
            return Err(Unread::Engine(Error::Failed));
        }
        read_voters(self.alloc, &mut self.engine)
    }
}
