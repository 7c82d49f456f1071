//! Opens a log.

ghost use Rattle.std.specs.Prelude.{◌≡◌, false, IfErr, IfOk};
ghost use Rattle.raft_log_record_base.specs.declared.errors.Error.TheVariants as errors;
ghost use Rattle.raft_log_memtables.specs.Tables.{IsAtRest};
ghost use Rattle.raft_log_open.specs.Opening.{FailsToOpenDirectory, OpensDirectory};
ghost use Rattle.raft_log_open.specs.Reading.{BringsInRewrite};

use crate::reading::{ReadLog, read_log};
use log::Log;
use raft_log_dual_pipes::{DualPipes, OpenRefused, PipeLog};
use raft_log_file_settings::Config;
use raft_log_fs::FileSystem;
use raft_log_memtables::MemTables;
use raft_log_record_base::Error;
use raft_log_replay::ReplayThreads;
use std::alloc::Global;
use std::io::ErrorKind;
use std::thread::Threads;

/// A log that was opened: its pipes, and the tables of all groups, with nothing prepared in them.
#[derive(Drop)]
pub struct OpenedLog<F> {
    /// The log's pipes, which own its file system.
    pub pipes: DualPipes<F>,
    /// The tables of all groups.
    pub tables: MemTables,
    /// How many entries and values were read from Rewrite, at most 2^64 - 1. Dead ones count too.
    pub written: u64,
    pub ghost rests: { IsAtRest tables },
}

/// Opens the log of these settings:
/// - checks the settings and completes them,
/// - scans the directories,
/// - reads both queues with workers in these threads, and truncates damaged files,
/// - readies the files that are kept for use, syncs all files, and opens the pipes.
///
/// A file may have an alignment, as another program may write it. If one has, and all files could be read, `unpad`
/// first removes the padding from the log's files for good. They are then scanned and read again. A last file without a
/// record reads as one with a torn header, and isn't one of these.
///
/// If it fails, the file system is returned, and the log may be opened again. Nothing is truncated unless all files of
/// both queues could be read.
///
/// # Errors
///
/// - `Io(Other)` if the file system has stopped. This is checked first, so `Memory` is never returned then.
/// - `Other` if the settings have a fault.
/// - The errors of scanning with `DualPipesBuilder`: `Other`, `Corruption`, `Io` for a directory.
/// - `Io` if a file can't be read; `Corruption` for damage that isn't tolerated.
/// - `Corruption` for a foreign record, in every mode: it is whole, but has a compression that isn't read.
/// - `Hole` or `Corruption` for a record that the replay rejects.
/// - `Io` if a call fails that truncates, writes, creates, renames, deletes or syncs a file.
/// - `NumberRange` if there is no name for a file.
/// - `Memory`.
pub fn open_directory<R: Threads + Log + Sync, F: FileSystem + Sync>(
    rt: &R,
    alloc: Global,
    threads: ReplayThreads,
    config: Config,
    file_system: F,
) -> Result<OpenedLog<F>, OpenRefused<F>>
    ensures ok { IfOk result (λ log. OpensDirectory F.disk F.tells_space config file_system
        (⟦<DualPipes<F> as PipeLog>⟧.shown log.pipes) log.tables) }
    ensures brought { IfOk result (λ log. BringsInRewrite config (F.disk file_system) log.written) }
    ensures err { IfErr result (λ refused. FailsToOpenDirectory F.disk F.tells_space config refused.error
        file_system refused.file_system) }
    ensures memory { IfErr result (λ refused. refused.error ≡ errors.Memory
        → (F.disk file_system).stopped ≡ false) }
{
    if file_system.has_stopped() {
        let error = Error::Io(ErrorKind::Other);
        return Err(OpenRefused { error, file_system });
    }
    let mut file_system = file_system;
    let ReadLog {
        builder,
        tables,
        written,
    } = match read_log(rt, alloc, threads, config, &mut file_system) {
        Ok(read) => read,
        Err(error) => return Err(OpenRefused { error, file_system }),
    };
    match builder.finish(alloc, rt, file_system) {
        Ok(pipes) => Ok(OpenedLog {
            pipes,
            tables,
            written,
        }),
        Err(refused) => Err(refused),
    }
}
