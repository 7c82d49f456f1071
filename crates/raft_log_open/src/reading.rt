//! Reads a log.

ghost use Rattle.std.specs.Prelude.{◌≡◌, IfErr, IfOk, OnOk};
ghost use Rattle.raft_log_record_base.specs.declared.errors.Error.TheVariants.{Memory};
ghost use Rattle.raft_log_file_settings.specs.Sanitized.{IsRefusedFor};
ghost use Rattle.raft_log_file_settings.specs.Settings.{settings_of};
ghost use Rattle.raft_log_recovery.specs.Finding.{FindsLog, IsBegun};
ghost use Rattle.raft_log_open.specs.Finding.{FailsToReadAnew, FindsAnew, ReadsAnew};
ghost use Rattle.raft_log_open.specs.Opening.{FailsToOpenDirectory};
ghost use Rattle.raft_log_open.specs.Reading.{AreMergedOf, BringsInRewrite, ReadsLog, ReadsQueues};

use crate::unpad;
use log::{Log, warn};
use raft_log_file_settings::Config;
use raft_log_fs::FileSystem;
use raft_log_memtables::MemTables;
use raft_log_record_base::{Error, Result};
use raft_log_recovery::DualPipesBuilder;
use raft_log_replay::ReplayThreads;
use raft_log_replay_context::{MemTableRecoverContext, MemTableRecoverContextFactory};
use std::alloc::Global;
use std::thread::Threads;

/// A log that was read: its files, ready to be opened as pipes, and the tables of all groups.
#[derive(Drop)]
pub struct ReadLog {
    pub builder: DualPipesBuilder,
    pub tables: MemTables,
    /// How many entries and values were read from Rewrite.
    pub written: u64,
}

/// The queues of a log that were read: their files, and what was read of each.
#[derive(Drop)]
pub struct ReadQueues {
    pub builder: DualPipesBuilder,
    pub append: MemTableRecoverContext,
    pub rewrite: MemTableRecoverContext,
}

/// Reads the log of these settings into tables with these threads, and readies the files that are kept for use.
pub fn read_log<R: Threads + Log + Sync, F: FileSystem + Sync>(
    rt: &R,
    alloc: Global,
    threads: ReplayThreads,
    config: Config,
    file_system: &mut F,
) -> Result<ReadLog>
    ensures ok { IfOk result (λ read. ReadsLog F.disk F.tells_space config read.tables read.builder
        file_system.old file_system.new) }
    ensures brought { IfOk result (λ read. BringsInRewrite config (F.disk file_system.old) read.written) }
    ensures err { IfErr result (λ error. FailsToOpenDirectory F.disk F.tells_space config error
        file_system.old file_system.new) }
{
    let ReadQueues {
        builder,
        append,
        rewrite,
    } = match read_queues(rt, alloc, threads, config, file_system) {
        Ok(read) => read,
        Err(error) => return Err(error),
    };
    let mut builder = builder;
    let written = rewrite.written();
    let tables = match merge(append, rewrite) {
        Ok(tables) => tables,
        Err(error) => return Err(error),
    };
    match builder.initialize_files(alloc, rt, file_system) {
        Ok(()) => Ok(ReadLog {
            builder,
            tables,
            written,
        }),
        Err(error) => Err(error),
    }
}

/// Reads both queues of the log of these settings with these threads, each into its own context, after removing padding
/// from files that have some. Then truncates damaged files.
fn read_queues<R: Threads + Log + Sync, F: FileSystem + Sync>(
    rt: &R,
    alloc: Global,
    threads: ReplayThreads,
    config: Config,
    file_system: &mut F,
) -> Result<ReadQueues>
    ensures ok { IfOk result (λ read. ReadsQueues config read.append read.rewrite read.builder
        (F.disk file_system.old) (F.disk file_system.new)) }
    ensures err { IfErr result (λ error. FailsToOpenDirectory F.disk F.tells_space config error
        file_system.old file_system.new) }
{
    let mut builder = match find(rt, alloc, config, file_system) {
        Ok(builder) => builder,
        Err(error) => return Err(error),
    };
    let factory = MemTableRecoverContextFactory::new(alloc);
    match builder.recover_by(rt, alloc, threads, file_system, &factory) {
        Ok((append, rewrite)) => Ok(ReadQueues {
            builder,
            append,
            rewrite,
        }),
        Err(error) => match error {
            Error::InvalidArgument(_) => read_unpadded(rt, alloc, threads, builder, file_system),
            error => Err(error),
        },
    }
}

/// Removes the padding from the files of the log that a builder has found, and reads both queues with these threads.
fn read_unpadded<R: Threads + Log + Sync, F: FileSystem + Sync>(
    rt: &R,
    alloc: Global,
    threads: ReplayThreads,
    builder: DualPipesBuilder,
    file_system: &mut F,
) -> Result<ReadQueues>
    ensures ok { IfOk result (λ read. ReadsAnew builder read.append read.rewrite read.builder
        (F.disk file_system.old) (F.disk file_system.new)) }
    ensures err { IfErr result (λ error. FailsToReadAnew builder error
        (F.disk file_system.old) (F.disk file_system.new)) }
{
    let mut builder = builder;
    find_unpadded(rt, alloc, &mut builder, file_system)?;
    let factory = MemTableRecoverContextFactory::new(alloc);
    match builder.recover_by(rt, alloc, threads, file_system, &factory) {
        Ok((append, rewrite)) => Ok(ReadQueues {
            builder,
            append,
            rewrite,
        }),
        Err(error) => Err(error),
    }
}

/// Removes the padding from the files of the log that a builder has found, and finds them again.
pub(crate) fn find_unpadded<R: Log, F: FileSystem>(
    rt: &R,
    alloc: Global,
    builder: &mut DualPipesBuilder,
    file_system: &mut F,
) -> Result<()>
    ensures ok { OnOk result (FindsAnew builder.old builder.new
        (F.disk file_system.old) (F.disk file_system.new)) }
    ensures err { IfErr result (λ error. FailsToReadAnew builder.old error
        (F.disk file_system.old) (F.disk file_system.new)) }
{
    let written = unpad(alloc, builder.config(), file_system)?.len();
    warn!(rt; "{written} log files had an alignment, and were written anew without their padding");
    builder.scan(alloc, rt, file_system)
}

/// Finds the files of the log of these settings.
pub(crate) fn find<R: Log, F: FileSystem>(
    rt: &R,
    alloc: Global,
    config: Config,
    file_system: &mut F,
) -> Result<DualPipesBuilder>
    ensures ok { IfOk result (λ builder. FindsLog config builder
        (F.disk file_system.old) (F.disk file_system.new)) }
    ensures err { IfErr result (λ error. FailsToOpenDirectory F.disk F.tells_space config error
        file_system.old file_system.new) }
{
    let mut builder = match begin(rt, alloc, config) {
        Ok(builder) => builder,
        Err(error) => return Err(error),
    };
    match builder.scan(alloc, rt, file_system) {
        Ok(()) => Ok(builder),
        Err(error) => Err(error),
    }
}

/// Checks the settings and completes them, for a log of which no file is known.
fn begin<R: Log>(rt: &R, alloc: Global, config: Config) -> Result<DualPipesBuilder>
    ensures ok { IfOk result (IsBegun config) }
    ensures err { IfErr result (IsRefusedFor (settings_of config)) }
{
    let mut config = config;
    match config.sanitize(rt, alloc) {
        Ok(()) => Ok(DualPipesBuilder::new(alloc, config)),
        Err(error) => Err(error),
    }
}

/// Merges both contexts into tables, that of Append over that of Rewrite.
pub(crate) fn merge(
    append: MemTableRecoverContext,
    rewrite: MemTableRecoverContext,
) -> Result<MemTables>
    ensures ok { IfOk result (AreMergedOf append rewrite) }
    ensures err { IfErr result (λ error. error ≡ Memory) }
{
    let mut rewrite = rewrite;
    match rewrite.merge_append_context(append) {
        Ok(()) => Ok(rewrite.finish()),
        Err(error) => Err(error),
    }
}
