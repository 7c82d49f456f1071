//! A log that nobody has open is checked for holes.

ghost use Rattle.std.specs.Prelude.{◌≡◌, false, IfErr, IfOk};
ghost use Rattle.raft_log_record_base.specs.declared.errors.Error.TheVariants.{Memory};
ghost use Rattle.raft_log_file_settings.specs.Sanitized.{IsRefusedFor};
ghost use Rattle.raft_log_file_settings.specs.Settings.{settings_of};
ghost use Rattle.raft_log_recovery.specs.Finding.{FindsLog, IsBegun};
ghost use Rattle.raft_log_offline.specs.Checking.{ChecksLog, FailsToCheck, ReadsRuns};

use crate::checker::{ConsistencyChecker, ConsistencyCheckerFactory, Finding, join_findings};
use log::Log;
use raft_log_file_settings::Config;
use raft_log_fs::FileSystem;
use raft_log_record_base::{Error, Result};
use raft_log_recovery::DualPipesBuilder;
use std::alloc::Global;
use std::io::ErrorKind;
use std::thread::Threads;

/// What checkers have read of a log.
#[derive(Drop)]
struct CheckedQueues {
    append: ConsistencyChecker,
    rewrite: ConsistencyChecker,
}

/// Checks the log of these settings for holes. A run is the entries of one item. It has a hole after it if the next run
/// of its group in the same queue starts past its end + 1. Returns the end of the first such run for each group that
/// has one, in Rewrite or else in Append, sorted by group.
///
/// The records are those that an open would read. What is missing before the first run or after the last one isn't
/// seen. Files with an alignment are read too.
///
/// Opens no engine, and changes no file. As an open does, makes missing directories. Damage that the settings tolerate
/// ends the reading of its file.
///
/// A file system that has stopped is reported first, as `Io(Other)`, so that no stop is reported as lack of memory.
/// Then fails:
/// - with `Other` if the settings have a fault
/// - as a scan does: with `Other`, `Corruption`, or `Io` of the directories
/// - with `Io` if a file can't be read, or with `Corruption` for damage that isn't tolerated
/// - with `Corruption` for a foreign record: it is whole, but has a compression that isn't read
/// - with `Memory`
pub fn check_log<R: Threads + Log + Sync, F: FileSystem + Sync>(
    rt: &R,
    alloc: Global,
    config: Config,
    file_system: &mut F,
) -> Result<Vec<Finding>>
    ensures ok { IfOk result (λ findings. ChecksLog config findings.items
        (F.disk file_system.old) (F.disk file_system.new)) }
    ensures err { IfErr result (λ error. FailsToCheck config error
        (F.disk file_system.old) (F.disk file_system.new)) }
    ensures memory { IfErr result (λ error. error ≡ Memory → (F.disk file_system.old).stopped ≡ false) }
{
    if file_system.has_stopped() {
        return Err(Error::Io(ErrorKind::Other));
    }
    let CheckedQueues { append, rewrite } = match read_runs(rt, alloc, config, file_system) {
        Ok(queues) => queues,
        Err(error) => return Err(error),
    };
    match join_findings(alloc, append, rewrite) {
        Ok(findings) => Ok(findings),
        Err(_) => Err(Error::Memory),
    }
}

/// Checks the log of these settings for holes as `check_log` does, but reads it on the caller's thread: Append's files,
/// and then Rewrite's. Fails as `check_log` does.
pub fn check_log_in_turn<L: Log, F: FileSystem + Sync>(
    rt: &L,
    alloc: Global,
    config: Config,
    file_system: &mut F,
) -> Result<Vec<Finding>>
    ensures ok { IfOk result (λ findings. ChecksLog config findings.items
        (F.disk file_system.old) (F.disk file_system.new)) }
    ensures err { IfErr result (λ error. FailsToCheck config error
        (F.disk file_system.old) (F.disk file_system.new)) }
    ensures memory { IfErr result (λ error. error ≡ Memory → (F.disk file_system.old).stopped ≡ false) }
{
    if file_system.has_stopped() {
        return Err(Error::Io(ErrorKind::Other));
    }
    let CheckedQueues { append, rewrite } = match read_runs_in_turn(
        rt,
        alloc,
        config,
        file_system,
    ) {
        Ok(queues) => queues,
        Err(error) => return Err(error),
    };
    match join_findings(alloc, append, rewrite) {
        Ok(findings) => Ok(findings),
        Err(_) => Err(Error::Memory),
    }
}

/// Reads both queues of the log of these settings, each into a checker of its own.
fn read_runs<R: Threads + Log + Sync, F: FileSystem + Sync>(
    rt: &R,
    alloc: Global,
    config: Config,
    file_system: &mut F,
) -> Result<CheckedQueues>
    ensures ok { IfOk result (λ queues. ReadsRuns config queues.append queues.rewrite
        (F.disk file_system.old) (F.disk file_system.new)) }
    ensures err { IfErr result (λ error. FailsToCheck config error
        (F.disk file_system.old) (F.disk file_system.new)) }
{
    let builder = match find(rt, alloc, config, file_system) {
        Ok(builder) => builder,
        Err(error) => return Err(error),
    };
    let factory = ConsistencyCheckerFactory::new(alloc);
    match builder.recover_for_reading(rt, alloc, file_system, &factory) {
        Ok((append, rewrite)) => Ok(CheckedQueues { append, rewrite }),
        Err(error) => Err(error),
    }
}

/// Reads both queues as `read_runs` does, on the caller's thread.
fn read_runs_in_turn<L: Log, F: FileSystem + Sync>(
    rt: &L,
    alloc: Global,
    config: Config,
    file_system: &mut F,
) -> Result<CheckedQueues>
    ensures ok { IfOk result (λ queues. ReadsRuns config queues.append queues.rewrite
        (F.disk file_system.old) (F.disk file_system.new)) }
    ensures err { IfErr result (λ error. FailsToCheck config error
        (F.disk file_system.old) (F.disk file_system.new)) }
{
    let builder = match find(rt, alloc, config, file_system) {
        Ok(builder) => builder,
        Err(error) => return Err(error),
    };
    let factory = ConsistencyCheckerFactory::new(alloc);
    match builder.recover_for_reading_in_turn(alloc, file_system, &factory) {
        Ok((append, rewrite)) => Ok(CheckedQueues { append, rewrite }),
        Err(error) => Err(error),
    }
}

/// Finds the files of the log of these settings.
fn find<R: Log, F: FileSystem>(
    rt: &R,
    alloc: Global,
    config: Config,
    file_system: &mut F,
) -> Result<DualPipesBuilder>
    ensures ok { IfOk result (λ builder. FindsLog config builder
        (F.disk file_system.old) (F.disk file_system.new)) }
    ensures err { IfErr result (λ error. FailsToCheck config error
        (F.disk file_system.old) (F.disk file_system.new)) }
{
    let mut builder = match begin(rt, alloc, config) {
        Ok(builder) => builder,
        Err(error) => return Err(error),
    };
    match builder.scan(alloc, rt, file_system) {
        Ok(()) => Ok(builder),
        Err(error) => Err(error),
    }
}

/// Checks and completes settings, for a log whose files aren't known yet.
fn begin<R: Log>(rt: &R, alloc: Global, config: Config) -> Result<DualPipesBuilder>
    ensures ok { IfOk result (IsBegun config) }
    ensures err { IfErr result (IsRefusedFor (settings_of config)) }
{
    let mut config = config;
    match config.sanitize(rt, alloc) {
        Ok(()) => Ok(DualPipesBuilder::new(alloc, config)),
        Err(error) => Err(error),
    }
}
