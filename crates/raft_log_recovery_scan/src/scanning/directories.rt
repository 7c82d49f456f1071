//! The log's directories are made if they are missing, and listed.

ghost use Rattle.std.specs.Prelude.{◌≡◌, IfOk, IfErr, OnOk, map};
ghost use Rattle.std.specs.List.{AllZip};
ghost use Rattle.std.specs.String.{string_bytes};
ghost use Rattle.raft_log_fs.specs.Reading.{IsListing};
ghost use Rattle.raft_log_recovery_scan.specs.Directories.{MakesIfAbsent, FailsToHave, HasDirectories, FailsToHaveAll, TellsNoDirectory, TellsRefusal, FailsToList, FailsToListAll};

use raft_log_fs::FileSystem;
use raft_log_record_base::{Error, Result};
use std::alloc::Global;
use std::io::ErrorKind;

/// Makes those of these directories that are missing.
///
/// Fails with `Other` if a file has the path of one. Fails with `Io` if one isn't made or the file system had stopped,
/// or with `Memory`. If it fails, the directories before that one are there, and nothing else changed.
pub fn make_directories<F: FileSystem>(
    alloc: Global,
    file_system: &mut F,
    paths: &[String],
) -> Result<()>
    ensures ok { OnOk result (HasDirectories (map string_bytes paths.now)
        (F.disk file_system.old) (F.disk file_system.new)) }
    ensures err { IfErr result (λ error. FailsToHaveAll (map string_bytes paths.now) error
        (F.disk file_system.old) (F.disk file_system.new)) }
{
    for path in paths {
        make_directory(alloc, file_system, path.as_str())?;
    }
    Ok(())
}

/// Makes a directory if none has the path.
fn make_directory<F: FileSystem>(alloc: Global, file_system: &mut F, path: &str) -> Result<()>
    ensures ok { OnOk result
        (MakesIfAbsent path.now (F.disk file_system.old) (F.disk file_system.new)) }
    ensures err { IfErr result (λ error.
        FailsToHave path.now error (F.disk file_system.old) (F.disk file_system.new)) }
{
    let kind = match file_system.list(path) {
        Ok(_) => return Ok(()),
        Err(kind) => kind,
    };
    if file_system.has_stopped() {
        return Err(Error::Io(kind));
    }
    if kind == ErrorKind::OutOfMemory {
        return Err(Error::Memory);
    }
    if kind == ErrorKind::NotFound {
        return match file_system.create_dir(path) {
            Ok(()) => Ok(()),
            Err(kind) => Err(Error::Io(kind)),
        };
    }
    Err(no_directory(alloc, path))
}

/// The names of the files of each of these directories. Fails with `Io` if one doesn't exist or the file system has
/// stopped, or with `Memory`.
pub fn list_directories<F: FileSystem>(
    alloc: Global,
    file_system: &F,
    paths: &[String],
) -> Result<Vec<Vec<String>>>
    ensures ok { IfOk result (λ listings. AllZip (λ path names.
        IsListing (string_bytes path) (F.disk file_system.now) (map string_bytes names.items))
        paths.now listings.items) }
    ensures err { IfErr result (λ error.
        FailsToListAll (map string_bytes paths.now) (F.disk file_system.now) error) }
{
    let mut listings = Vec::new(alloc);
    for path in paths {
        let names = list_directory(file_system, path.as_str())?;
        listings.push(names)?;
    }
    Ok(listings)
}

/// The names of a directory's files.
fn list_directory<F: FileSystem>(file_system: &F, path: &str) -> Result<Vec<String>>
    ensures ok { IfOk result (λ names.
        IsListing path.now (F.disk file_system.now) (map string_bytes names.items)) }
    ensures err { IfErr result (λ error. FailsToList path.now (F.disk file_system.now) error) }
{
    match file_system.list(path) {
        Ok(names) => Ok(names),
        Err(kind) => Err(refusal(file_system.has_stopped(), kind)),
    }
}

/// Why the file system failed a call that changes nothing.
pub(crate) fn refusal(stopped: bool, kind: ErrorKind) -> Error
    ensures { TellsRefusal stopped kind result }
{
    if !stopped && kind == ErrorKind::OutOfMemory {
        return Error::Memory;
    }
    Error::Io(kind)
}

/// The error for a path that isn't a directory's.
fn no_directory(alloc: Global, path: &str) -> Error
    ensures { TellsNoDirectory path.now result }
{
    match format!(in alloc; "Not directory: {path}") {
        Ok(text) => Error::other(alloc, anyhow::Error::msg(text)),
        Err(_) => Error::Memory,
    }
}
