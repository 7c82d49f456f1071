//! Which entries of a directory are files of a log.
use super::fault::DirectoryFault;
use raft_log_file_format::{FileNameExt, parse_reserved_file_name};
use raft_log_record_base::{FileId, FileSeq, LogQueue};
use std::fs::{DirEntry, File};
use std::io::ErrorKind;
use std::rt::Files;
use std::{fs, io};

/// The name of a file that is being written without padding, before it gets the name of the file that it replaces.
const UNPADDED: &str = "unpadded";

/// A file of a log, as a directory lists it.
#[derive(Drop)]
pub(crate) struct ListedFile {
    /// Its path.
    pub path: String,
    /// Its queue and its number; none if it belongs to no queue, for example a file that is kept for recycling.
    pub id: Option<FileId>,
}

/// The files in a directory that have names of log files; entries with other names are skipped. The first two errors
/// name the path:
/// - `Irregular`: an entry with a log file's name is no regular file.
/// - `Refused`: the operating system failed a call.
/// - `Memory`: memory ran out.
pub(crate) fn list_files<R: Files<File = File> + AllocGlobal + Clone>(
    rt: &R,
    directory: &str,
) -> Result<Vec<ListedFile>, DirectoryFault> {
    let entries = match fs::read_dir(rt, directory) {
        Ok(entries) => entries,
        Err(error) => return Err(DirectoryFault::of_files(rt.alloc(), directory, error)),
    };
    let mut found = Vec::new(rt.alloc());
    for entry in entries {
        if let Some(file) = listed(rt, directory, entry)? {
            found.push(file)?;
        }
    }
    Ok(found)
}

/// The log file that an entry is; none if it has another name. A name that isn't UTF-8 is no log file's.
fn listed<R: Files<File = File> + AllocGlobal + Clone>(
    rt: &R,
    directory: &str,
    entry: io::Result<DirEntry<R>>,
) -> Result<Option<ListedFile>, DirectoryFault> {
    let entry = match entry {
        Ok(entry) => entry,
        Err(error) if error.kind() == ErrorKind::InvalidFilename => return Ok(None),
        Err(error) => return Err(DirectoryFault::of_files(rt.alloc(), directory, error)),
    };
    let name = entry.file_name();
    if !is_log_name(name) {
        return Ok(None);
    }
    let path = format!(in rt.alloc(); "{directory}/{name}")?;
    match entry.file_type() {
        Ok(kind) if kind.is_file() => Ok(Some(ListedFile {
            path,
            id: FileId::parse_file_name(name),
        })),
        Ok(_) => Err(DirectoryFault::Irregular(path)),
        Err(error) => Err(DirectoryFault::of_files(rt.alloc(), path.as_str(), error)),
    }
}

/// Whether a name is a log file's: one of a queue, one kept for recycling, or one that is written to replace another.
fn is_log_name(name: &str) -> bool {
    FileId::parse_file_name(name).is_some()
        || parse_reserved_file_name(name).is_some()
        || name == UNPADDED
}

/// The greatest number of a queue's files; none if the queue has no file.
pub(crate) fn last_number(files: &[ListedFile], queue: LogQueue) -> Option<FileSeq> {
    let mut last = None;
    for file in files {
        if let Some(id) = file.id {
            if id.queue == queue {
                last = Some(greater(last, id.seq));
            }
        }
    }
    last
}

/// The greater of a number and the greatest before it, if there is one.
fn greater(last: Option<FileSeq>, seq: FileSeq) -> FileSeq {
    match last {
        Some(last) => last.max(seq),
        None => seq,
    }
}
