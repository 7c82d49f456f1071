//! Logs which bytes of files are truncated, and why.

ghost use Rattle.std.specs.Prelude.{◌≤◌, length};

use crate::paths::paths;
use log::{Log, info, warn};
use raft_log_active_file::{File, LogLayout, PipeFormat};
use raft_log_file_format::LogFileFormat;
use raft_log_file_settings::Config;
use raft_log_fs::FileSystem;
use raft_log_record_base::{FileId, LogFileContext, LogQueue, Result};
use raft_log_record_frames::{decode_frame, decode_header};
use raft_log_recovery_read::FileEnding;
use std::alloc::{AllocError, Global};

/// How many bytes are read at a time to see whether they are zeros.
const ROOM: usize = 4096;

/// How many bytes of what is truncated are searched for a whole record.
const SEARCHED: usize = 1 << 18;

/// Logs which bytes of a file are truncated, and what is wrong with them. Zeros alone are no damage: a file that was
/// grown ahead of its records ends in them after a crash. Other bytes give a warning in three cases:
/// - the file has no good header
/// - a whole record is among the first 256 KiB that are truncated
/// - the bytes can't be read, or memory runs out
pub(crate) fn log_cut<F: FileSystem, L: Log>(
    rt: &L,
    alloc: Global,
    file_system: &F,
    settings: &Config,
    queue: LogQueue,
    file: File,
    ending: FileEnding,
) {
    let name = name_of(queue);
    let end = ending.end.unwrap_or(0);
    let size = file_system.file_size(file.handle).unwrap_or(end);
    let lost = size.saturating_sub(end);
    let Ok(path) = path_in(alloc, settings, queue, file) else {
        let seq = file.seq;
        warn!(rt; "{name} file {seq}: {lost} bytes after {end} are truncated");
        return;
    };
    if has_only_zeros(file_system, file, end, size) {
        info!(rt; "{name} file {path}: {lost} zeros after {end} bytes are truncated");
        return;
    }
    let Ok(tail) = read_tail(alloc, file_system, file, end, lost.min(SEARCHED)) else {
        warn!(rt; "{name} file {path}: {lost} bytes after {end} are truncated");
        return;
    };
    let Ok(cause) = cause_of(alloc, ending, tail.as_slice(), lost) else {
        warn!(rt; "{name} file {path}: {lost} bytes after {end} are truncated");
        return;
    };
    let id = FileId::new(queue, file.seq);
    if ending.end.is_none() || holds_record(alloc, tail.as_slice(), id, ending) {
        warn!(rt; "{name} file {path}: {lost} bytes after {end} are truncated: {cause}");
    } else {
        info!(rt; "{name} file {path}: {lost} bytes after {end} are truncated: {cause}");
    }
}

/// A queue's name in a log line.
fn name_of(queue: LogQueue) -> &'static str {
    match queue {
        LogQueue::Append => "append",
        LogQueue::Rewrite => "rewrite",
    }
}

/// The path of a queue's file in the directories of these settings.
fn path_in(alloc: Global, settings: &Config, queue: LogQueue, file: File) -> Result<String> {
    let layout = LogLayout::new(queue, paths(alloc, settings)?);
    layout.file_path(alloc, &file)
}

/// Whether a file of this size has only zeros from an offset on; `false` if they can't be read.
fn has_only_zeros<F: FileSystem>(file_system: &F, file: File, offset: usize, size: usize) -> bool {
    let mut room = [0; ROOM];
    for start in (offset..size).step_by(ROOM) {
        match file_system.read_at(file.handle, start, &mut room) {
            Ok(read) => {
                if !room.iter().take(read.count).all(|byte| *byte == 0) {
                    return false;
                }
            }
            Err(_) => return false,
        }
    }
    true
}

/// So many bytes of a file from an offset on.
fn read_tail<F: FileSystem>(
    alloc: Global,
    file_system: &F,
    file: File,
    offset: usize,
    count: usize,
) -> Result<Vec<u8>> {
    let mut bytes = vec![in alloc; 0u8; count]?;
    file_system.read_at(file.handle, offset, bytes.as_mut_slice())?;
    Ok(bytes)
}

/// What is wrong with the `lost` bytes that are truncated, which begin with these.
fn cause_of(
    alloc: Global,
    ending: FileEnding,
    tail: &[u8],
    lost: usize,
) -> Result<String, AllocError> {
    let mut rest: &[u8] = tail;
    if ending.end.is_none() {
        return match LogFileFormat::decode(alloc, &mut rest) {
            Ok(_) => format!(in alloc; "the header has an alignment, and no record follows"),
            Err(error) => format!(in alloc; "{error}"),
        };
    }
    match decode_header(alloc, &mut rest) {
        Ok((_, _, len)) if len > lost => {
            format!(in alloc; "a record of {len} bytes ends past the file's end")
        }
        Ok((_, _, len)) => format!(in alloc; "a record of {len} bytes has a wrong checksum"),
        Err(error) => format!(in alloc; "{error}"),
    }
}

/// Whether a whole record of this file begins somewhere in these bytes. No record is sought in the zeros at their end.
fn holds_record(alloc: Global, tail: &[u8], id: FileId, ending: FileEnding) -> bool {
    let signature = LogFileContext::new(id, ending.format.version).get_signature();
    let len = filled_len(tail);
    for at in 0..len {
        if decode_frame(alloc, &tail[at..], signature).is_ok() {
            return true;
        }
    }
    false
}

/// The number of bytes up to the last one that isn't zero.
fn filled_len(bytes: &[u8]) -> usize
    ensures { result ≤ length bytes.now }
{
    let mut len = bytes.len();
    while len > 0 && bytes[len - 1] == 0 {
        len -= 1;
    }
    len
}
