//! Opening a pipe: over the files that were found of its queue, or over none.

ghost use Rattle.std.specs.Prelude.{◌≡◌, [], false, IfErr, IfOk};
ghost use Rattle.raft_log_fs.specs.Causes.{IsLater};
ghost use Rattle.raft_log_file_pipe.specs.Opening.{BeginLeaves, BeginsPipe, IsListedAs, IsListedFirst, OpenLeaves, OpensPipe, TakeUpLeaves, TakesUpFound, first_number, taken_up};
ghost use Rattle.raft_log_file_pipe.specs.Placing.{IsChosen};
ghost use Rattle.raft_log_file_pipe.specs.Doing.{OpensPipeBy};
ghost use Rattle.raft_log_file_format.specs.Header.{header_bytes};
ghost use Rattle.raft_log_active_file.specs.Layout.{path_of};
ghost use Rattle.raft_log_active_file.specs.Opening.{BeginsQueueBy};
ghost use Rattle.raft_log_active_file.specs.TakingUp.{ReopensBy};

use crate::found_files::FoundFiles;
use crate::headers::encode_header;
use crate::new_files::{NewFiles, choose_directory};
use crate::pipe_files::PipeFiles;
use log::{Log, error};
use raft_log_active_file::{DEFAULT_FIRST_FILE_SEQ, File, PipeFormat, begin_queue, reopen_file};
use raft_log_file_format::LogFileFormat;
use raft_log_fs::{FileSystem, Handle, Permission};
use raft_log_record_base::{Error, FileSeq, Result};
use std::alloc::Global;
use std::collections::VecDeque;

/// Begins a queue that has no file, in its file 1. The files that are kept for recycling are those that were found.
fn begin<G: PipeFormat, F: FileSystem, L: Log>(
    alloc: Global,
    layout: &G,
    rt: &L,
    file_system: &mut F,
    new_files: &NewFiles,
    recycled: VecDeque<File>,
) -> Result<PipeFiles>
    ensures ok { IfOk result (λ files. BeginsPipe (G.format layout.now) (G.own layout.now)
        (G.file_paths layout.now) new_files.now.format recycled.items files
        (F.disk file_system.old) (F.disk file_system.new)) }
    ensures listed { IfOk result (IsListedFirst new_files.now.format recycled.items) }
    ensures placed { IfOk result (λ files. IsChosen (F.tells_space file_system.old) (F.disk file_system.old)
        new_files.now.target_size (G.file_paths layout.now).directories files.active.path_id) }
    ensures err { IfErr result (λ error. BeginLeaves (G.format layout.now) (G.own layout.now)
        (G.file_paths layout.now) new_files.now.format recycled.items error
        (F.disk file_system.old) (F.disk file_system.new)) }
    ensures calls { IfOk result (λ files. (files.active.reserved ≡ false)
        × BeginsQueueBy (path_of (G.file_paths layout.now) files.active) (header_bytes new_files.now.format)
        files.active.handle files.writer (F.disk file_system.old) (F.disk file_system.new)) }
    ensures later { IsLater (F.disk file_system.old) (F.disk file_system.new) }
{
    let mut first = File {
        seq: DEFAULT_FIRST_FILE_SEQ,
        handle: Handle {
            file: 0,
            permission: Permission::ReadOnly,
        },
        format: new_files.format,
        path_id: choose_directory(layout, file_system, new_files.target_size)?,
        reserved: false,
    };
    let path = layout.file_path(alloc, &first)?;
    match begin_queue(layout, rt, file_system, &path, new_files.header()) {
        Ok((handle, writer)) => {
            first.handle = handle;
            Ok(PipeFiles {
                first_seq: DEFAULT_FIRST_FILE_SEQ,
                earlier: VecDeque::new(alloc),
                active: first,
                writer,
                recycled,
            })
        }
        Err(kind) => {
            error!(rt; "the first log file, {path}, wasn't begun: {kind}");
            Err(Error::Io(kind))
        }
    }
}

/// The last file as the pipe lists it: one without a header gets one of version 1.
fn take_last(last: File, end: Option<usize>) -> File
    ensures { result ≡ taken_up end last }
{
    match end {
        Some(_) => last,
        None => File {
            format: LogFileFormat::default(),
            ..last
        },
    }
}

/// The number of the first of these files.
fn first_seq(earlier: &VecDeque<File>, last: &File) -> FileSeq
    ensures { result ≡ first_number earlier.now.items last.now }
{
    match earlier.front() {
        Some(file) => file.seq,
        None => last.seq,
    }
}

/// Reopens a queue after what was read of its last file.
fn reopen_active_file<G: PipeFormat, F: FileSystem, L: Log>(
    alloc: Global,
    layout: &G,
    rt: &L,
    file_system: &mut F,
    earlier: VecDeque<File>,
    last: File,
    end: Option<usize>,
    recycled: VecDeque<File>,
) -> Result<PipeFiles>
    ensures ok { IfOk result (λ files. TakesUpFound (G.format layout.now) (G.own layout.now)
        (G.file_paths layout.now) earlier.items last end recycled.items files
        (F.disk file_system.old) (F.disk file_system.new)) }
    ensures listed { IfOk result (IsListedAs earlier.items (taken_up end last) recycled.items) }
    ensures err { IfErr result (λ error. TakeUpLeaves (G.format layout.now) (G.own layout.now)
        (G.file_paths layout.now) earlier.items last end recycled.items error
        (F.disk file_system.old) (F.disk file_system.new)) }
    ensures calls { IfOk result (λ files. ReopensBy last.handle end (header_bytes (taken_up end last).format)
        files.writer (F.disk file_system.old) (F.disk file_system.new)) }
    ensures later { IsLater (F.disk file_system.old) (F.disk file_system.new) }
{
    let active = take_last(last, end);
    let header = encode_header(alloc, active.format)?;
    match reopen_file(layout, rt, file_system, active.handle, end, &header) {
        Ok(writer) => Ok(PipeFiles {
            first_seq: first_seq(&earlier, &active),
            earlier,
            active,
            writer,
            recycled,
        }),
        Err(kind) => {
            error!(rt; "log file {} wasn't taken up: {kind}", active.seq);
            Err(Error::Io(kind))
        }
    }
}

/// Opens a pipe over what was found of its queue. If there is no file, the queue begins with file 1. Otherwise it
/// continues after what was read of its last file, which is truncated there and synced. If that file has no header, it
/// gets one of version 1.
///
/// - `Memory`: nothing was done.
/// - `InvalidArgument`: the last file's format has an alignment, and nothing was done.
/// - `Io`: a file call failed; all records that were read are still there.
pub fn open<G: PipeFormat, F: FileSystem, L: Log>(
    alloc: Global,
    layout: &G,
    rt: &L,
    file_system: &mut F,
    new_files: &NewFiles,
    found: FoundFiles,
) -> Result<PipeFiles>
    ensures ok { IfOk result (λ files. OpensPipe (G.format layout.now) (G.own layout.now)
        (G.file_paths layout.now) new_files.now found files
        (F.disk file_system.old) (F.disk file_system.new)) }
    ensures placed { found.files.items ≡ [] → IfOk result (λ files.
        IsChosen (F.tells_space file_system.old) (F.disk file_system.old) new_files.now.target_size
        (G.file_paths layout.now).directories files.active.path_id) }
    ensures err { IfErr result (λ error. OpenLeaves (G.format layout.now) (G.own layout.now)
        (G.file_paths layout.now) new_files.now found error
        (F.disk file_system.old) (F.disk file_system.new)) }
    ensures calls { IfOk result (λ files. OpensPipeBy (G.file_paths layout.now) new_files.now.format found
        files (F.disk file_system.old) (F.disk file_system.new)) }
    ensures later { IsLater (F.disk file_system.old) (F.disk file_system.new) }
{
    let FoundFiles {
        mut files,
        end,
        recycled,
    } = found;
    match files.pop_back() {
        Some(last) => reopen_active_file(
            alloc,
            layout,
            rt,
            file_system,
            files,
            last,
            end,
            recycled,
        ),
        None => begin(alloc, layout, rt, file_system, new_files, recycled),
    }
}
