//! Opens the pipes of a log, over what was found of its queues.

ghost use Rattle.std.specs.Prelude.{IfErr, IfOk};
ghost use Rattle.raft_log_fs.specs.Causes.{IsLater};
ghost use Rattle.raft_log_dual_pipes.specs.Opening.{FailsToOpenLog, OpensLog};

use crate::dual_pipes::DualPipes;
use crate::pipe_log::PipeLog;
use log::Log;
use raft_log_active_file::LogLayout;
use raft_log_file_pipe::{FoundFiles, PipeSettings, SinglePipe};
use raft_log_fs::FileSystem;
use raft_log_record_base::Error;
use std::alloc::Global;

/// What a scan found of a queue, and how its pipe is to write the files.
#[derive(Drop)]
pub struct FoundPipe {
    /// Where the queue's files are.
    pub layout: LogLayout,
    /// How the queue's files are to be written.
    pub settings: PipeSettings,
    /// Which files exist.
    pub found: FoundFiles,
}

/// Why a log wasn't opened, and its file system.
#[derive(Drop)]
pub struct OpenRefused<F> {
    /// The error.
    pub error: Error,
    /// The file system, which is returned.
    pub file_system: F,
}

impl<F: FileSystem> DualPipes<F> {
    /// Opens both pipes, Append's first, over what was found of the log's queues. If the log was at rest, its contents
    /// are the same, and nothing is unsynced.
    ///
    /// If opening a pipe fails, returns that pipe's error with the file system. If the log was at rest, it is still on
    /// the disk, with the same contents.
    pub fn open<L: Log>(
        alloc: Global,
        rt: &L,
        file_system: F,
        append: FoundPipe,
        rewrite: FoundPipe,
    ) -> Result<DualPipes<F>, OpenRefused<F>>
        ensures ok { IfOk result (λ pipes. OpensLog append rewrite (F.disk file_system)
            (⟦<DualPipes<F> as PipeLog>⟧.shown pipes)) }
        ensures err { IfErr result (λ refused. FailsToOpenLog append rewrite refused.error
            (F.disk file_system) (F.disk refused.file_system)) }
        ensures later { IfOk result (λ pipes. IsLater (F.disk file_system)
            (⟦<DualPipes<F> as PipeLog>⟧.shown pipes).disk) }
        ensures later_refused { IfErr result (λ refused. IsLater (F.disk file_system)
            (F.disk refused.file_system)) }
    {
        let mut file_system = file_system;
        let FoundPipe {
            layout,
            settings,
            found,
        } = append;
        let one = match SinglePipe::open(alloc, layout, settings, rt, &mut file_system, found) {
            Ok(pipe) => pipe,
            Err(error) => return Err(OpenRefused { error, file_system }),
        };
        let FoundPipe {
            layout,
            settings,
            found,
        } = rewrite;
        match SinglePipe::open(alloc, layout, settings, rt, &mut file_system, found) {
            Ok(other) => Ok(DualPipes::new(file_system, one, other)),
            Err(error) => Err(OpenRefused { error, file_system }),
        }
    }
}
