//! A log in a file system in memory: its files while no engine has it open, and an engine that has.

ghost use Rattle.std.specs.Prelude.{◌≡◌, IfOk};
ghost use Rattle.std.specs.String.{string_bytes};
ghost use Rattle.raft_log_engine.specs.raft_log_engine_core.specs.Reads.{shows_of};
ghost use Rattle.raft_log_engine.specs.raft_log_fs_memory.specs.Memory.{disk_of};
ghost use Rattle.raft_log_recovery_laws.specs.ByCalls.{home_of};
ghost use Rattle.raft_log_recovery_laws.specs.ForkResting.{NamesOnly};
ghost use Rattle.raft_log_machine_laws.specs.Fresh.{nothing_stands};
ghost use Rattle.raft_log_world.specs.Model.ModelLog.{resting};
ghost use Rattle.raft_log_world_engine.specs.Instance.{engine_log, IsFilesLog};

use crate::calls::{self, failure};
use crate::faults::{fault_of, told};
use crate::laws::{copies_follow_the_model, crashes_follow_the_model, opens_follow_the_model};
use crate::ranges;
use log::sink::Discard;
use log::{LevelFilter, Log, Logged};
use raft_log_engine::{
    Closed, Config, Engine, EnginePipes, FileSystem, LogBatch, MemoryFileSystem, PipeLog,
    Remainder, fork,
};
use raft_log_world::{Answer, Fault, LogFiles, Purge};
use std::alloc::{AllocError, Global};
use std::thread::Threads;

/// A file system, and the settings that name a log in it.
#[derive(Drop)]
pub struct ClosedLog {
    /// The settings.
    pub config: Config,
    /// The file system.
    pub files: MemoryFileSystem,
}

/// An engine that has the log open, and the settings that name the log.
#[derive(Drop)]
pub struct OpenLog {
    /// The settings.
    pub config: Config,
    /// The engine.
    pub engine: Engine<MemoryFileSystem>,
}

impl ClosedLog {
    /// Returns an empty file system with these settings. It is an empty log at rest.
    pub fn new(alloc: Global, config: Config) -> ClosedLog
        ensures config { result.config ≡ config }
        ensures empty { IsFilesLog config (disk_of result.files) (resting nothing_stands) }
    {
        ClosedLog {
            config,
            files: MemoryFileSystem::new(alloc),
        }
    }
}

/// Returns a copy of the settings, with so many workers.
fn with_workers(config: &Config, workers: u64) -> Result<Config, AllocError>
    ensures { IfOk result (λ settings. home_of settings ≡ home_of config.now) }
{
    let mut settings = config.clone()?;
    settings.recovery_threads = workers as usize;
    Ok(settings)
}

/// Returns the settings for a log in this directory alone.
fn in_directory(mut config: Config, directory: String) -> Config
    ensures { NamesOnly result (string_bytes directory) }
{
    config.dir = directory;
    config.spill_dir = None;
    config
}

impl<R: Log> LogFiles<R, OpenLog, LogBatch, Remainder> for ClosedLog {
    ghost log = { engine_log (record {
      config = λ engine. engine.config;
      shows = λ engine. shows_of ⟦<EnginePipes<MemoryFileSystem> as PipeLog>⟧.shown engine.engine;
      settings = λ closed. closed.config;
      disk = λ closed. disk_of closed.files;
    }) };

    fn open<T: Threads + Sync>(
        self,
        rt: &T,
        alloc: Global,
        workers: u64,
    ) -> Result<OpenLog, ClosedLog> {
        opens_follow_the_model::<MemoryFileSystem, Remainder>();
        let Ok(settings) = with_workers(&self.config, workers) else {
            return Err(self);
        };
        let ClosedLog { config, files } = self;
        let quiet = Logged::new(rt, LevelFilter::Off, Discard);
        match Engine::open_with_file_system(&quiet, alloc, settings, files) {
            Ok(engine) => Ok(OpenLog { config, engine }),
            Err(refused) => Err(ClosedLog {
                config,
                files: refused.file_system,
            }),
        }
    }

    fn write(engine: &mut OpenLog, rt: &R, batch: LogBatch, sync: bool) -> Answer {
        calls::write(rt, &mut engine.engine, batch, sync)
    }

    fn sync(engine: &mut OpenLog, rt: &R) -> Answer {
        calls::sync_log(rt, &mut engine.engine)
    }

    fn get(engine: &mut OpenLog, group: u64, key: Vec<u8>) -> Answer {
        calls::get(&mut engine.engine, group, key)
    }

    fn get_entry(engine: &mut OpenLog, group: u64, index: u64) -> Answer {
        calls::get_entry(&mut engine.engine, group, index)
    }

    fn first_index(engine: &mut OpenLog, group: u64) -> Answer {
        calls::first_index(&mut engine.engine, group)
    }

    fn last_index(engine: &mut OpenLog, group: u64) -> Answer {
        calls::last_index(&mut engine.engine, group)
    }

    fn fetch(
        engine: &mut OpenLog,
        alloc: Global,
        group: u64,
        begin: u64,
        end: u64,
        max: Option<u64>,
    ) -> Answer {
        ranges::fetch(&mut engine.engine, alloc, group, begin, end, max)
    }

    fn scan(
        engine: &mut OpenLog,
        alloc: Global,
        group: u64,
        start: Option<Vec<u8>>,
        end: Option<Vec<u8>>,
    ) -> Answer {
        ranges::scan(&mut engine.engine, alloc, group, start, end)
    }

    fn compact(engine: &mut OpenLog, rt: &R, group: u64, index: u64) -> Answer {
        calls::compact(rt, &mut engine.engine, group, index)
    }

    fn purge(engine: &mut OpenLog, rt: &R, kind: Purge) -> Answer {
        calls::purge(rt, &mut engine.engine, kind)
    }

    fn fork(self, rt: &R, alloc: Global, target: String) -> (Answer, ClosedLog) {
        copies_follow_the_model::<MemoryFileSystem, Remainder>();
        let ClosedLog { config, mut files } = self;
        match fork(rt, alloc, &config, &mut files, target.as_str()) {
            Ok(_) => {
                let config = in_directory(config, target);
                (Answer::Done, ClosedLog { config, files })
            }
            Err(_) => (Answer::Refused, ClosedLog { config, files }),
        }
    }

    fn arm(&mut self, fault: &Fault) -> Answer {
        let disk_fault = fault_of(fault);
        let done = self.files.arm(&disk_fault).is_ok();
        told(done)
    }

    fn arm_under(engine: &mut OpenLog, fault: &Fault) -> Answer {
        let disk_fault = fault_of(fault);
        let done = engine.engine.arm(&disk_fault).is_ok();
        told(done)
    }

    fn close(engine: OpenLog, rt: &R) -> (Answer, ClosedLog) {
        let OpenLog { config, engine } = engine;
        let failed = engine.is_failed();
        let Closed { files, result } = engine.close(rt);
        let answer = match result {
            Ok(()) => Answer::Done,
            Err(_) => failure(failed),
        };
        (answer, ClosedLog { config, files })
    }

    fn crash(self, left: &Remainder) -> Result<ClosedLog, AllocError> {
        crashes_follow_the_model::<MemoryFileSystem, Remainder>();
        let ClosedLog { config, files } = self;
        let files = files.remainder(left)?;
        Ok(ClosedLog { config, files })
    }

    fn crash_under(engine: OpenLog, left: &Remainder) -> Result<ClosedLog, AllocError> {
        crashes_follow_the_model::<MemoryFileSystem, Remainder>();
        let OpenLog { config, engine } = engine;
        let files = engine.file_system().remainder(left)?;
        Ok(ClosedLog { config, files })
    }
}
