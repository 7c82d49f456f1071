//! Which files are read: the one at a path, or those of a directory.
ghost use Rattle.std.specs.Prelude.{◌≡◌, ◌↔◌, ◌∷◌, [], ◌++◌, map, true, Some, IfOk, IfErr};
ghost use Rattle.std.specs.String.{string_bytes};
ghost use Rattle.raft_log_record_base.specs.declared.errors.Error.TheVariants.{Memory};
ghost use Rattle.raft_log_fs.specs.Arguments.{IsDeclined};
ghost use Rattle.raft_log_file_reader.specs.Files.{IsLogPath, IsFileAt, IsNoFile, AreFilesOf, IsNoDirectory, AreFoundAmong};
ghost use Rattle.raft_log_file_reader.specs.Telling.{TellsInvalid, TellsAbsent};

use crate::log_file::LogFile;
use raft_log_file_format::FileNameExt;
use raft_log_fs::{FileSystem, Permission};
use raft_log_record_base::{Error, FileId, Result};
use std::alloc::Global;
use std::io::ErrorKind;

/// The log file with this path, as the only one. Fails with `InvalidArgument` if no file has the path, or if its name
/// isn't a log file's. Fails with `Io` if the file system has stopped, or with `Memory`.
pub(crate) fn file_at<F: FileSystem>(
    alloc: Global,
    file_system: &F,
    path: &str,
) -> Result<Vec<LogFile>>
    ensures ok { IfOk result (λ files. IsFileAt path.now (F.disk file_system.now) files.items) }
    ensures err { IfErr result (λ error. IsNoFile path.now (F.disk file_system.now) error) }
{
    if let Err(kind) = file_system.open(path, Permission::ReadOnly) {
        let stopped = file_system.has_stopped();
        return Err(absent(alloc, stopped, kind, "Not a file", path));
    }
    let Some(id) = id_of(path) else {
        return Err(invalid(alloc, "Invalid log file name", path));
    };
    let mut files = Vec::new(alloc);
    let path = String::from_str(alloc, path)?;
    files.push(LogFile { id, path })?;
    Ok(files)
}

/// The log files of a directory, those of Rewrite first, and each queue's in the order of their numbers. Fails with
/// `InvalidArgument` if the path isn't a directory's, with `Io` if the file system has stopped, or with `Memory`.
pub(crate) fn files_in<F: FileSystem>(
    alloc: Global,
    file_system: &F,
    directory: &str,
) -> Result<Vec<LogFile>>
    ensures ok { IfOk result (λ files. AreFilesOf directory.now (F.disk file_system.now) files.items) }
    ensures err { IfErr result (λ error. IsNoDirectory directory.now (F.disk file_system.now) error) }
{
    match file_system.list(directory) {
        Ok(names) => {
            let mut files = log_files(alloc, directory, names.as_slice())?;
            files.sort_by_key(|file| file.id)?;
            Ok(files)
        }
        Err(kind) => {
            let stopped = file_system.has_stopped();
            Err(absent(alloc, stopped, kind, "Not a directory", directory))
        }
    }
}

/// The log files among those with these names in a directory, in the order of the names.
fn log_files(alloc: Global, directory: &str, names: &[String]) -> Result<Vec<LogFile>>
    ensures ok { IfOk result (λ files.
        AreFoundAmong directory.now (map string_bytes names.now) files.items) }
    ensures err { IfErr result (λ error. error ≡ Memory) }
{
    let mut files = Vec::new(alloc);
    for name in names {
        if let Some(id) = FileId::parse_file_name(name.as_str()) {
            let path = format!(in alloc; "{directory}/{name}")?;
            files.push(LogFile { id, path })?;
        }
    }
    Ok(files)
}

/// The log file that the name after a path's last slash says, if it says one.
fn id_of(path: &str) -> Option<FileId>
    ensures { (id : FileId) → (result ≡ Some id) ↔ IsLogPath id path.now }
{
    let Some(at) = path.rfind('/') else {
        return None;
    };
    FileId::parse_file_name(&path[at + 1..])
}

/// Why a file wasn't opened or a directory not listed: `Io` after a stop, `Memory`, or `InvalidArgument` with these
/// words.
fn absent(alloc: Global, stopped: bool, kind: ErrorKind, words: &str, path: &str) -> Error
    ensures { TellsAbsent stopped kind words.now path.now result }
{
    if stopped {
        return Error::Io(kind);
    }
    if kind == ErrorKind::OutOfMemory {
        return Error::Memory;
    }
    invalid(alloc, words, path)
}

/// `InvalidArgument` with these words and the path, or `Memory` if there is no memory for the text.
fn invalid(alloc: Global, words: &str, path: &str) -> Error
    ensures { TellsInvalid words.now path.now result }
{
    match format!(in alloc; "{words}: {path}") {
        Ok(text) => Error::InvalidArgument(text),
        Err(_) => Error::Memory,
    }
}
