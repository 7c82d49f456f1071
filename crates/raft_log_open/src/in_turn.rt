//! Opens a log, which is read on the caller's thread.

ghost use Rattle.std.specs.Prelude.{◌≡◌, false, IfErr, IfOk};
ghost use Rattle.raft_log_record_base.specs.declared.errors.Error.TheVariants as errors;
ghost use Rattle.raft_log_open.specs.Finding.{FailsToReadAnew, ReadsAnew};
ghost use Rattle.raft_log_open.specs.Opening.{FailsToOpenDirectory, OpensDirectory};
ghost use Rattle.raft_log_open.specs.Reading.{BringsInRewrite, ReadsLog, ReadsQueues};

use crate::opening::OpenedLog;
use crate::reading::{ReadLog, ReadQueues, find, find_unpadded, merge};
use log::Log;
use raft_log_dual_pipes::{DualPipes, OpenRefused, PipeLog};
use raft_log_file_settings::Config;
use raft_log_fs::FileSystem;
use raft_log_record_base::{Error, Result};
use raft_log_recovery::DualPipesBuilder;
use raft_log_replay_context::MemTableRecoverContextFactory;
use std::alloc::Global;
use std::io::ErrorKind;

/// Opens the log of these settings as `open_directory` does, but reads both queues on the caller's thread. So it needs
/// no threads.
///
/// Fails as `open_directory` does.
pub fn open_directory_in_turn<R: Log, F: FileSystem + Sync>(
    rt: &R,
    alloc: Global,
    config: Config,
    file_system: F,
) -> Result<OpenedLog<F>, OpenRefused<F>>
    ensures ok { IfOk result (λ log. OpensDirectory F.disk F.tells_space config file_system
        (⟦<DualPipes<F> as PipeLog>⟧.shown log.pipes) log.tables) }
    ensures brought { IfOk result (λ log. BringsInRewrite config (F.disk file_system) log.written) }
    ensures err { IfErr result (λ refused. FailsToOpenDirectory F.disk F.tells_space config refused.error
        file_system refused.file_system) }
    ensures memory { IfErr result (λ refused. refused.error ≡ errors.Memory
        → (F.disk file_system).stopped ≡ false) }
{
    if file_system.has_stopped() {
        let error = Error::Io(ErrorKind::Other);
        return Err(OpenRefused { error, file_system });
    }
    let mut file_system = file_system;
    let ReadLog {
        builder,
        tables,
        written,
    } = match read_log_in_turn(rt, alloc, config, &mut file_system) {
        Ok(read) => read,
        Err(error) => return Err(OpenRefused { error, file_system }),
    };
    match builder.finish(alloc, rt, file_system) {
        Ok(pipes) => Ok(OpenedLog {
            pipes,
            tables,
            written,
        }),
        Err(refused) => Err(refused),
    }
}

/// Reads the log of these settings into tables on the caller's thread, and readies the files that are kept for use.
fn read_log_in_turn<R: Log, F: FileSystem + Sync>(
    rt: &R,
    alloc: Global,
    config: Config,
    file_system: &mut F,
) -> Result<ReadLog>
    ensures ok { IfOk result (λ read. ReadsLog F.disk F.tells_space config read.tables read.builder
        file_system.old file_system.new) }
    ensures brought { IfOk result (λ read. BringsInRewrite config (F.disk file_system.old) read.written) }
    ensures err { IfErr result (λ error. FailsToOpenDirectory F.disk F.tells_space config error
        file_system.old file_system.new) }
{
    let ReadQueues {
        builder,
        append,
        rewrite,
    } = match read_queues_in_turn(rt, alloc, config, file_system) {
        Ok(read) => read,
        Err(error) => return Err(error),
    };
    let mut builder = builder;
    let written = rewrite.written();
    let tables = match merge(append, rewrite) {
        Ok(tables) => tables,
        Err(error) => return Err(error),
    };
    match builder.initialize_files(alloc, rt, file_system) {
        Ok(()) => Ok(ReadLog {
            builder,
            tables,
            written,
        }),
        Err(error) => Err(error),
    }
}

/// Reads both queues of the log of these settings on the caller's thread, each into its own context, after removing
/// padding from files that have some. Then truncates damaged files.
fn read_queues_in_turn<R: Log, F: FileSystem + Sync>(
    rt: &R,
    alloc: Global,
    config: Config,
    file_system: &mut F,
) -> Result<ReadQueues>
    ensures ok { IfOk result (λ read. ReadsQueues config read.append read.rewrite read.builder
        (F.disk file_system.old) (F.disk file_system.new)) }
    ensures err { IfErr result (λ error. FailsToOpenDirectory F.disk F.tells_space config error
        file_system.old file_system.new) }
{
    let mut builder = match find(rt, alloc, config, file_system) {
        Ok(builder) => builder,
        Err(error) => return Err(error),
    };
    let factory = MemTableRecoverContextFactory::new(alloc);
    match builder.recover_in_turn(rt, alloc, file_system, &factory) {
        Ok((append, rewrite)) => Ok(ReadQueues {
            builder,
            append,
            rewrite,
        }),
        Err(error) => match error {
            Error::InvalidArgument(_) => read_unpadded_in_turn(rt, alloc, builder, file_system),
            error => Err(error),
        },
    }
}

/// Removes the padding from the files of the log that a builder has found, and reads both queues on the caller's
/// thread.
fn read_unpadded_in_turn<R: Log, F: FileSystem + Sync>(
    rt: &R,
    alloc: Global,
    builder: DualPipesBuilder,
    file_system: &mut F,
) -> Result<ReadQueues>
    ensures ok { IfOk result (λ read. ReadsAnew builder read.append read.rewrite read.builder
        (F.disk file_system.old) (F.disk file_system.new)) }
    ensures err { IfErr result (λ error. FailsToReadAnew builder error
        (F.disk file_system.old) (F.disk file_system.new)) }
{
    let mut builder = builder;
    find_unpadded(rt, alloc, &mut builder, file_system)?;
    let factory = MemTableRecoverContextFactory::new(alloc);
    match builder.recover_in_turn(rt, alloc, file_system, &factory) {
        Ok((append, rewrite)) => Ok(ReadQueues {
            builder,
            append,
            rewrite,
        }),
        Err(error) => Err(error),
    }
}
