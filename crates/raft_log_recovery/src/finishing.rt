//! What was recovered of a queue is put into its pipe.

ghost use Rattle.std.specs.Prelude.{◌≡◌, IfErr, IfOk, length};
ghost use Rattle.raft_log_record_base.specs.declared.errors.Error.TheVariants.{Memory};
ghost use Rattle.raft_log_recovery.specs.Endings.{as_read, end_of_last};
ghost use Rattle.raft_log_recovery.specs.Finishing.{IsWantedAs, TellsUnread};

use crate::paths::paths;
use crate::recovered_queue::RecoveredQueue;
use raft_log_active_file::{File, LogLayout};
use raft_log_dual_pipes::FoundPipe;
use raft_log_file_format::LogFileFormat;
use raft_log_file_pipe::{FoundFiles, NewFiles, PipeSettings};
use raft_log_file_settings::Config;
use raft_log_record_base::{Error, LogQueue, Result};
use raft_log_recovery_read::FileEnding;
use std::alloc::Global;
use std::collections::VecDeque;

/// The pipe that the settings want for a queue, without files yet. Fails only with `Memory`.
pub(crate) fn wanted_pipe(alloc: Global, config: &Config, queue: LogQueue) -> Result<FoundPipe>
    ensures ok { IfOk result (IsWantedAs queue config.now) }
    ensures err { IfErr result (λ error. error ≡ Memory) }
{
    let layout = LogLayout::new(queue, paths(alloc, config)?);
    let format = LogFileFormat::new(config.format_version, 0);
    let new_files = NewFiles::new(alloc, format, config.target_file_size.0 as usize)?;
    let capacity = match queue {
        LogQueue::Append => config.recycle_capacity(),
        LogQueue::Rewrite => 0,
    };
    Ok(FoundPipe {
        layout,
        settings: PipeSettings {
            queue,
            new_files,
            capacity,
        },
        found: FoundFiles {
            files: VecDeque::new(alloc),
            end: None,
            recycled: VecDeque::new(alloc),
        },
    })
}

/// Puts the files of a queue as they were recovered into its pipe, with those that are kept for recycling.
pub(crate) fn recovered_pipe(wanted: FoundPipe, read: RecoveredQueue, kept: Vec<File>) -> FoundPipe
    requires { length read.endings.items ≡ length read.files.items }
    ensures layout { result.layout ≡ wanted.layout }
    ensures settings { result.settings ≡ wanted.settings }
    ensures files { result.found.files.items ≡ as_read read.endings.items read.files.items }
    ensures end { result.found.end ≡ end_of_last read.endings.items }
    ensures spares { result.found.recycled.items ≡ kept.items }
{
    let FoundPipe {
        layout,
        settings,
        ..
    } = wanted;
    let RecoveredQueue { mut files, endings } = read;
    let end = end_of_last(&endings);
    set_formats(&mut files, &endings);
    FoundPipe {
        layout,
        settings,
        found: FoundFiles {
            files: VecDeque::from_vec(files),
            end,
            recycled: VecDeque::from_vec(kept),
        },
    }
}

/// The offset up to which the last file was read, if there is a file and it has a header.
fn end_of_last(endings: &[FileEnding]) -> Option<usize>
    ensures { result ≡ end_of_last endings.now }
{
    match endings.last() {
        Some(ending) => ending.end,
        None => None,
    }
}

/// Gives each file the format that was read of it.
fn set_formats(files: &mut [File], endings: &[FileEnding])
    requires { length endings.now ≡ length files.old }
    ensures { files.new ≡ as_read endings.now files.old }
{
    for index in 0..endings.len() {
        files[index].format = endings[index].format;
    }
}

/// The error if files weren't recovered: `InvalidArgument`, or `Memory` if there is no memory for its text.
pub(crate) fn unread(alloc: Global) -> Error
    ensures { TellsUnread result }
{
    match format!(in alloc; "the log's files weren't recovered") {
        Ok(text) => Error::InvalidArgument(text),
        Err(_) => Error::Memory,
    }
}
