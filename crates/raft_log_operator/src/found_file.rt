//! The log files in a log's directories.
use crate::fault::CommandFault;
use raft_log_command_line::Place;
use raft_log_command_line::place::parted;
use raft_log_engine::{Error, FileId, FileSystem};
use raft_log_file_format::FileNameExt;
use std::alloc::Global;
use std::io::ErrorKind;

/// A log file in one of a log's directories.
#[derive(Drop)]
pub struct FoundFile {
    /// The file's queue and its number.
    pub id: FileId,
    /// The file's path.
    pub path: String,
}

/// The log files of a log: Rewrite's first, each queue's by number. If two have one number, that of the main directory
/// comes first. If the main path is a file's, that file is returned in place of the main directory's.
///
/// Fails with `File` if a directory isn't listed, or `Log` if the one file has no log file's name or memory runs out.
pub fn find_files<F: FileSystem>(
    alloc: Global,
    files: &F,
    place: &Place,
) -> Result<Vec<FoundFile>, CommandFault> {
    let mut found = Vec::new(alloc);
    let path = place.directory.as_str();
    match files.list(path) {
        Ok(names) => add_files(alloc, path, names.as_slice(), &mut found)?,
        Err(ErrorKind::InvalidInput) => found.push(one_file(alloc, path)?)?,
        Err(kind) => return Err(CommandFault::at(alloc, path, Error::Io(kind))),
    }
    if let Some(spill) = &place.spill_directory {
        let path = spill.as_str();
        match files.list(path) {
            Ok(names) => add_files(alloc, path, names.as_slice(), &mut found)?,
            Err(kind) => return Err(CommandFault::at(alloc, path, Error::Io(kind))),
        }
    }
    found.sort_by_key(|file| file.id)?;
    Ok(found)
}

/// Appends the log files among those with these names in a directory.
fn add_files(
    alloc: Global,
    directory: &str,
    names: &[String],
    found: &mut Vec<FoundFile>,
) -> Result<(), CommandFault> {
    for name in names {
        if let Some(id) = FileId::parse_file_name(name.as_str()) {
            let path = format!(in alloc; "{directory}/{name}")?;
            found.push(FoundFile { id, path })?;
        }
    }
    Ok(())
}

/// The log file with this path.
fn one_file(alloc: Global, path: &str) -> Result<FoundFile, CommandFault> {
    let (_home, name) = parted(path);
    match FileId::parse_file_name(name) {
        Some(id) => Ok(FoundFile {
            id,
            path: String::from_str(alloc, path)?,
        }),
        None => Err(CommandFault::Log(Error::InvalidArgument(format!(in alloc;
            "Invalid log file name: {path}"
        )?))),
    }
}
