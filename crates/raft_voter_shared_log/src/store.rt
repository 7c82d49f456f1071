//! A store of voters on a log, and the settings that name the log.
ghost use Rattle.std.specs.Prelude.{◌≡◌, IfErr, IfOk, OnOk};
ghost use Rattle.raft_log_file_settings.specs.Settings.{settings_of};
ghost use Rattle.raft_log_engine.specs.raft_log_engine_core.specs.Reads.{shows_of};
ghost use Rattle.raft_log_engine.specs.raft_log_dual_pipes.specs.ClosingCalls.{ClosesSettled};
ghost use Rattle.raft_voter_outline.specs.Kept.{outlines_in};
ghost use Rattle.raft_voter_log.specs.Instance.{ClosesStore};
ghost use Rattle.raft_voter_shared_log.specs.Opening.{FailsToOpenStore, OpensStore};

use log::Log;
use raft_log_engine::{Closed, Config, EnginePipes, FileSystem, Nobody, PipeLog};
use raft_voter_recovery::Unread;
use raft_voter_store::{StoreRefused, VoterStore};
use std::alloc::{AllocError, Global};
use std::thread::Threads;

/// A store of voters on a log in a file system, and the settings that name the log.
#[derive(Drop)]
pub struct LogStore<F> {
    /// The settings.
    pub config: Config,
    /// The store.
    pub store: VoterStore<F>,
}

impl<F: FileSystem + Sync> LogStore<F> {
    /// Opens the store whose log these settings name, as `VoterStore::open` does. If it fails, the file system is
    /// returned; it is unchanged if there was no memory for the settings.
    pub fn open<R: Threads + Log + Sync>(
        rt: &R,
        alloc: Global,
        config: Config,
        file_system: F,
    ) -> Result<LogStore<F>, StoreRefused<F>>
        ensures config { IfOk result (λ opened. opened.config ≡ config) }
        ensures ok { IfOk result (λ opened. OpensStore F.disk F.tells_space config file_system
            (shows_of ⟦<EnginePipes<F, Nobody> as PipeLog>⟧.shown opened.store.engine)
            (outlines_in opened.store.outlines)) }
        ensures err { IfErr result (λ refused. FailsToOpenStore F.disk F.tells_space config refused.cause
            file_system refused.file_system) }
    {
        let Ok(settings) = copy_settings(&config) else {
            return Err(StoreRefused {
                cause: Unread::Memory,
                file_system,
            });
        };
        match VoterStore::open(rt, alloc, settings, file_system, Nobody) {
            Ok(store) => Ok(LogStore { config, store }),
            Err(refused) => Err(refused),
        }
    }

    /// Closes the log, and returns the file system in any case. If the result is `Ok`, everything that the store wrote
    /// is durable. Else it fails as `VoterStore::close` does.
    pub fn close<R: Log>(self, rt: &R) -> Closed<F>
        ensures closes { ClosesStore (shows_of ⟦<EnginePipes<F, Nobody> as PipeLog>⟧.shown self.store.engine)
            (F.disk result.files) }
        ensures settled { OnOk result.result
            (ClosesSettled (⟦<EnginePipes<F, Nobody> as PipeLog>⟧.shown self.store.engine.pipes)
            (F.disk result.files)) }
    {
        let LogStore {
            config: _config,
            store,
        } = self;
        store.close(rt)
    }
}

/// A copy of the settings.
fn copy_settings(config: &Config) -> Result<Config, AllocError>
    ensures { IfOk result (λ copy. settings_of copy ≡ settings_of config.now) }
{
    Ok(config.clone()?)
}
