//! The files of a queue that were found, as segments.

ghost use Rattle.std.specs.Prelude.{◌≡◌, ◌<◌, length, slice_index_or};
ghost use Rattle.raft_log_active_file.specs.declared.format.File.{File};
ghost use Rattle.raft_log_recovery_read.specs.Segments.{is_at_end};

use crate::file_ending::FileEnding;
use crate::found_file::{FoundFile, ListedFile};
use crate::read_found;
use raft_log_active_file::File;
use raft_log_file_reader::LogItemBatchFileReader;
use raft_log_file_settings::RecoveryMode;
use raft_log_fs::FileSystem;
use raft_log_record_base::{FileId, LogQueue, Result};
use raft_log_replay::{ReplayMachine, ReplaySource};
use std::alloc::Global;

/// The files of a queue that were found, in the order of their numbers. Each is a segment; reading changes nothing.
pub struct QueueSegments<'a, F: FileSystem> {
    /// The allocator of the readers.
    pub alloc: Global,
    /// The file system.
    pub file_system: &'a F,
    /// Which queue.
    pub queue: LogQueue,
    /// Which damaged files are tolerated.
    pub mode: RecoveryMode,
    /// How many bytes of a file are read at a time.
    pub read_block_size: usize,
    /// The files, open.
    pub files: &'a [File],
}

impl<'a, F: FileSystem + Sync> ReplaySource for QueueSegments<'a, F> {
    ghost use Rattle.std.specs.Prelude.{length};
    ghost use Rattle.raft_log_recovery_read.specs.Segments.{BeginsFile, HoldsFile, RefusesFile};

    type Ending = FileEnding;

    ghost queue_of = { λ source. source.queue };

    ghost count_of = { λ source. length source.files.now };

    ghost holds = { λ source index batches ending. HoldsFile source.mode source.queue source.files.now
        (F.disk source.file_system.now) index batches ending };

    ghost begins = { λ source index batches. BeginsFile source.mode source.queue source.files.now
        (F.disk source.file_system.now) index batches };

    ghost refuses = { λ source index error. RefusesFile source.mode source.queue source.files.now
        (F.disk source.file_system.now) index error };

    fn queue(&self) -> LogQueue {
        self.queue
    }

    fn segment_count(&self) -> usize {
        self.files.len()
    }

    fn replay_segment<M: ReplayMachine>(
        &self,
        index: usize,
        machine: &mut M,
    ) -> Result<FileEnding> {
        let FoundFile {
            format,
            end,
            fault,
            declined,
        } = self.read_segment(index, machine)?;
        match declined {
            Some(error) => Err(error),
            None => Ok(FileEnding {
                format,
                end,
                is_damaged: fault.is_some(),
            }),
        }
    }
}

impl<'a, F: FileSystem> QueueSegments<'a, F> {
    ghost use Rattle.std.specs.Prelude.{◌<◌, length, IfOk, IfErr};
    ghost use Rattle.raft_log_recovery_read.specs.Segments.{IsSegment, RefusesFile};

    /// Reads the file in this place, and hands a machine its records. Fails as `read_found` does.
    fn read_segment<M: ReplayMachine>(&self, index: usize, machine: &mut M) -> Result<FoundFile>
        requires { index < length self.now.files.now }
        ensures ok { IfOk result (IsSegment self.now.mode self.now.queue self.now.files.now
            (F.disk self.now.file_system.now) index (M.reads self.now.queue) (M.declines self.now.queue)
            machine.old machine.new) }
        ensures err { IfErr result (RefusesFile self.now.mode self.now.queue self.now.files.now
            (F.disk self.now.file_system.now) index) }
    {
        let file = file_at(self.files, index);
        let listed = ListedFile {
            id: FileId {
                queue: self.queue,
                seq: file.seq,
            },
            handle: file.handle,
            is_last: is_at_end(self.files, index),
        };
        let mut reader = LogItemBatchFileReader::new(self.alloc, self.read_block_size);
        read_found(
            self.alloc,
            self.file_system,
            &mut reader,
            self.mode,
            listed,
            machine,
        )
    }
}

/// The file in this place.
fn file_at(files: &[File], index: usize) -> File
    requires { index < length files.now }
    ensures { (other : File) → result ≡ slice_index_or files.now index other }
{
    files[index]
}

/// Whether the file in this place is the last one.
fn is_at_end(files: &[File], index: usize) -> bool
    requires { index < length files.now }
    ensures { result ≡ is_at_end files.now index }
{
    files.len() - index == 1
}
