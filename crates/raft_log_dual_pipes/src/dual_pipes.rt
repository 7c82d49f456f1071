//! Both pipes of a log, over a file system that they own.

ghost use Rattle.std.specs.Prelude.{◌≡◌};

use crate::closed::Closed;
use crate::pipe_log::PipeLog;
use log::Log;
use raft_log_active_file::{DEFAULT_PATH_ID, LogLayout};
use raft_log_file_pipe::{ReactiveBytes, SinglePipe};
use raft_log_fs::{Fault, FileSystem};
use raft_log_record_base::{Error, FileBlockHandle, FileId, FileSeq, LogQueue, Result};
use std::alloc::Global;

/// Both pipes of a log, and the file system that their files are in.
#[derive(Drop)]
pub struct DualPipes<F> {
    file_system: F,
    append: SinglePipe<LogLayout>,
    rewrite: SinglePipe<LogLayout>,
}

impl<F: FileSystem> DualPipes<F> {
    ghost use Rattle.raft_log_dual_pipes.specs.Pipes.{main_directory};

    /// These pipes, over this file system.
    pub fn new(
        file_system: F,
        append: SinglePipe<LogLayout>,
        rewrite: SinglePipe<LogLayout>,
    ) -> DualPipes<F>
        ensures file_system { result.file_system ≡ file_system }
        ensures append { result.append ≡ append }
        ensures rewrite { result.rewrite ≡ rewrite }
    {
        DualPipes {
            file_system,
            append,
            rewrite,
        }
    }

    /// The directory of the log: the main one of Append's files.
    pub fn path(&self) -> &str
        ensures { result.now ≡ main_directory (⟦<DualPipes<F> as PipeLog>⟧.shown self.now) }
    {
        self.append.layout().directory(DEFAULT_PATH_ID)
    }
}

impl<F: FileSystem> PipeLog for DualPipes<F> {
    ghost use Rattle.std.specs.Prelude.{None, map, refl};
    ghost use Rattle.std.specs.String.{string_bytes};

    type Files = F;

    type Listener = ();

    ghost shown = { λ pipes. record {
      append = record {
        queue = pipes.append.layout.queue;
        directories = map string_bytes pipes.append.layout.paths.items;
        settings = pipes.append.settings;
        files = pipes.append.files;
        failed = pipes.append.failed;
      };
      rewrite = record {
        queue = pipes.rewrite.layout.queue;
        directories = map string_bytes pipes.rewrite.layout.paths.items;
        settings = pipes.rewrite.settings;
        files = pipes.rewrite.files;
        failed = pipes.rewrite.failed;
      };
      disk = F.disk pipes.file_system;
    } };

    ghost files = { λ pipes. pipes.file_system };

    ghost disk_of = { λ file_system. F.disk file_system };

    ghost arms_files = { λ fault old new. F.arms fault old new };

    ghost holds_back = { λ pipes queue held. held ≡ None };

    ghost listener = { λ pipes. tt };

    ghost hears = { λ one old new. Unit {0} };

    fn is_failed(&self) -> bool {
        self.append.is_failed() || self.rewrite.is_failed()
    }

    fn file_system(&self) -> &F {
        &self.file_system
    }

    fn has_stopped(&self) -> bool {
        self.file_system.has_stopped()
    }

    fn arm(&mut self, fault: &Fault) -> Result<()> {
        self.file_system.arm(fault)?;
        Ok(())
    }

    fn file_span(&self, queue: LogQueue) -> (FileSeq, FileSeq) {
        match queue {
            LogQueue::Append => self.append.file_span(),
            LogQueue::Rewrite => self.rewrite.file_span(),
        }
    }

    fn file_at(&self, queue: LogQueue, num: u32, den: u32) -> FileSeq {
        match queue {
            LogQueue::Append => self.append.file_at(num, den),
            LogQueue::Rewrite => self.rewrite.file_at(num, den),
        }
    }

    fn total_size(&self, queue: LogQueue) -> usize {
        match queue {
            LogQueue::Append => self.append.total_size(),
            LogQueue::Rewrite => self.rewrite.total_size(),
        }
    }

    fn read_bytes(&self, alloc: Global, block: FileBlockHandle) -> Result<Vec<u8>> {
        match block.id.queue {
            LogQueue::Append => self.append.read_bytes(alloc, &self.file_system, block),
            LogQueue::Rewrite => self.rewrite.read_bytes(alloc, &self.file_system, block),
        }
    }

    fn read_over(&self, alloc: Global, block: FileBlockHandle, bytes: &mut Vec<u8>) -> Result<()> {
        match block.id.queue {
            LogQueue::Append => self
                .append
                .read_over(alloc, &self.file_system, block, bytes),
            LogQueue::Rewrite => self
                .rewrite
                .read_over(alloc, &self.file_system, block, bytes),
        }
    }

    fn append<L: Log, B: ReactiveBytes>(
        &mut self,
        alloc: Global,
        rt: &L,
        queue: LogQueue,
        bytes: &mut B,
    ) -> Result<FileBlockHandle> {
        if self.is_failed() {
            return Err(Error::Failed);
        }
        match queue {
            LogQueue::Append => self.append.append(alloc, rt, &mut self.file_system, bytes),
            LogQueue::Rewrite => self.rewrite.append(alloc, rt, &mut self.file_system, bytes),
        }
    }

    fn sync<L: Log>(&mut self, rt: &L, queue: LogQueue) -> Result<()> {
        if self.is_failed() {
            return Err(Error::Failed);
        }
        match queue {
            LogQueue::Append => self.append.sync(rt, &mut self.file_system),
            LogQueue::Rewrite => self.rewrite.sync(rt, &mut self.file_system),
        }
    }

    fn rotate<L: Log>(&mut self, alloc: Global, rt: &L, queue: LogQueue) -> Result<()> {
        if self.is_failed() {
            return Err(Error::Failed);
        }
        match queue {
            LogQueue::Append => self.append.rotate(alloc, rt, &mut self.file_system),
            LogQueue::Rewrite => self.rewrite.rotate(alloc, rt, &mut self.file_system),
        }
    }

    fn purge_to<L: Log>(&mut self, alloc: Global, rt: &L, file_id: FileId) -> Result<usize> {
        if self.is_failed() {
            return Err(Error::Failed);
        }
        let FileId { queue, seq } = file_id;
        match queue {
            LogQueue::Append => self.append.purge_to(alloc, rt, &mut self.file_system, seq),
            LogQueue::Rewrite => self.rewrite.purge_to(alloc, rt, &mut self.file_system, seq),
        }
    }

    /// There is no listener.
    fn post_apply_memtables(&mut self, _file_id: FileId) {}

    /// There is no listener.
    fn first_file_not_ready_for_purge(&self, _queue: LogQueue) -> Option<FileSeq> {
        None
    }

    fn close<L: Log>(self, alloc: Global, rt: &L) -> Closed<F> {
        if self.is_failed() {
            return Closed {
                files: self.file_system,
                result: Err(Error::Failed),
            };
        }
        let DualPipes {
            mut file_system,
            mut append,
            mut rewrite,
        } = self;
        let of_append = append.finish(rt, &mut file_system);
        let of_rewrite = rewrite.finish(rt, &mut file_system);
        append.reserve_names(alloc, rt, &mut file_system);
        rewrite.reserve_names(alloc, rt, &mut file_system);
        Closed {
            files: file_system,
            result: of_append.and(of_rewrite),
        }
    }

    ghost same = { λ pipes. refl };
}
