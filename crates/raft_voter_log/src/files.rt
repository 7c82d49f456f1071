//! A log's files, while no store is open on them.
ghost use Rattle.std.specs.Prelude.{◌≡◌, IfErr, IfOk, OnOk};
ghost use Rattle.raft_log_fs.specs.Disk.{empty_disk};
ghost use Rattle.raft_log_fs_memory.specs.Memory.{disk_of};
ghost use Rattle.raft_log_engine.specs.raft_log_engine_core.specs.Reads.{shows_of};
ghost use Rattle.raft_voter.specs.Rounds.{fresh_world};
ghost use Rattle.raft_voter.specs.Service.{uncut};
ghost use Rattle.raft_voter_outline.specs.Kept.{outlines_in};
ghost use Rattle.raft_voter_log.specs.Instance.{AreSame, HasWorkers, log_disk};
ghost use Rattle.raft_voter_log.specs.Leaving.{FilesLeave};

use crate::causes::{cause_of, unread_cause};
use crate::faults::{fault_of, remainder_of};
use crate::voters::LogVoters;
use log::sink::Discard;
use log::{LevelFilter, Log, Logged};
use raft_log_engine::{Config, EnginePipes, FileSystem, MemoryFileSystem, Nobody, PipeLog, fork};
use raft_voter::{Cause, FilesRefused, Memory};
use raft_voter_store::VoterStore;
use raft_voter_world::{Fault, Left, VoterDisk};
use std::alloc::Global;
use std::thread::Threads;

/// A file system in memory, and the settings that name a log in it.
#[derive(Drop)]
pub struct LogFiles {
    /// The settings.
    pub config: Config,
    /// The file system.
    pub files: MemoryFileSystem,
}

impl LogFiles {
    /// A file system without files; all voters are fresh.
    pub fn new(alloc: Global, config: Config) -> LogFiles
        ensures config { result.config ≡ config }
        ensures empty { disk_of result.files ≡ empty_disk }
        ensures fresh { FilesLeave config (disk_of result.files) (uncut fresh_world) }
    {
        LogFiles {
            config,
            files: MemoryFileSystem::new(alloc),
        }
    }

    /// A copy of the settings with this many workers.
    fn settings_for(&self, workers: u64) -> Result<Config, Memory>
        ensures { IfOk result (HasWorkers self.now.config workers) }
    {
        let mut settings = copy_settings(&self.config)?;
        settings.recovery_threads = workers as usize;
        Ok(settings)
    }
}

/// A copy of the settings.
fn copy_settings(config: &Config) -> Result<Config, Memory>
    ensures { IfOk result (λ copy. AreSame copy config.now) }
{
    Ok(config.clone()?)
}

impl<R: Log> VoterDisk<R, LogVoters> for LogFiles {
    ghost disk = { log_disk ⟦<MemoryFileSystem as FileSystem>⟧.tells_space (λ voters. voters.config)
        (λ voters. shows_of ⟦<EnginePipes<MemoryFileSystem, Nobody> as PipeLog>⟧.shown voters.store.engine)
        (λ voters. outlines_in voters.store.outlines) };

    fn open<T: Threads + Sync>(
        self,
        rt: &T,
        alloc: Global,
        workers: u64,
    ) -> Result<LogVoters, FilesRefused<LogFiles>> {
        let Ok(settings) = self.settings_for(workers) else {
            return Err(FilesRefused {
                cause: Cause::Memory,
                files: self,
            });
        };
        let LogFiles { config, files } = self;
        let quiet = Logged::new(rt, LevelFilter::Off, Discard);
        match VoterStore::open(&quiet, alloc, settings, files, Nobody) {
            Ok(store) => Ok(LogVoters { config, store }),
            Err(refused) => Err(FilesRefused {
                cause: unread_cause(&refused.cause),
                files: LogFiles {
                    config,
                    files: refused.file_system,
                },
            }),
        }
    }

    fn close(store: LogVoters, rt: &R) -> LogFiles {
        let LogVoters { config, store } = store;
        LogFiles {
            config,
            files: store.close(rt).files,
        }
    }

    fn crashed(&self, left: &Left) -> Result<LogFiles, Memory> {
        Ok(LogFiles {
            config: copy_settings(&self.config)?,
            files: self.files.remainder(&remainder_of(left))?,
        })
    }

    fn crashed_under(store: &LogVoters, left: &Left) -> Result<LogFiles, Memory> {
        Ok(LogFiles {
            config: copy_settings(&store.config)?,
            files: store.store.file_system().remainder(&remainder_of(left))?,
        })
    }

    fn fork(&mut self, rt: &R, alloc: Global, target: &str) -> Result<(), Cause> {
        match fork(rt, alloc, &self.config, &mut self.files, target) {
            Ok(_) => Ok(()),
            Err(error) => Err(cause_of(&error)),
        }
    }

    fn arm(&mut self, fault: &Fault) -> Result<(), Memory> {
        if self.files.has_stopped() {
            return Ok(());
        }
        match self.files.arm(&fault_of(fault)) {
            Ok(()) => Ok(()),
            Err(_) => Err(Memory),
        }
    }

    fn has_stopped(&self) -> bool {
        self.files.has_stopped()
    }
}
