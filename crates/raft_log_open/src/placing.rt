//! Finds the files of a log, each with the temporary path for its new bytes.

ghost use Rattle.std.specs.Prelude.{◌≡◌, ◌<◌, [], length, All, IfOk, IfErr, map, slice_index_or};
ghost use Rattle.std.specs.List.{AllZip};
ghost use Rattle.std.specs.String.{string_bytes};
ghost use Rattle.raft_log_fs.specs.Reading.{IsListing};
ghost use Rattle.raft_log_recovery_scan.specs.Scanned.{FailsToFindFiles};
ghost use Rattle.raft_log_offline.specs.Sources.{IsSourceRefusal};
ghost use Rattle.raft_log_record_base.specs.declared.errors.Error.TheVariants.{Memory};
ghost use Rattle.raft_log_open.specs.Placing.{AreLogFiles, ArePlacedOf, IsListed, IsPlaced, kind_of, last_number, temporary_in};

use crate::placed_file::PlacedFile;
use raft_log_active_file::PathId;
use raft_log_fs::FileSystem;
use raft_log_offline::choosing::one_each;
use raft_log_record_base::{Error, FileId, FileSeq, LogQueue, Result};
use raft_log_recovery_scan::scanning::directories::list_directories;
use raft_log_recovery_scan::scanning::found::{FoundFile, find_files};
use raft_log_recovery_scan::{FileKind, FileName};
use std::alloc::Global;

/// The files of both queues in these directories, those of Rewrite first. If several have one number, the one in the
/// last directory.
pub(crate) fn find_placed<F: FileSystem>(
    alloc: Global,
    file_system: &F,
    paths: &[String],
) -> Result<Vec<PlacedFile>>
    ensures ok { IfOk result (λ files.
        AreLogFiles (map string_bytes paths.now) (F.disk file_system.now) files.items) }
    ensures err { IfErr result (IsSourceRefusal (map string_bytes paths.now) (F.disk file_system.now)) }
{
    let listings = list_directories(alloc, file_system, paths)?;
    let names = listings.as_slice();
    let mut files = placed_of(alloc, file_system, LogQueue::Rewrite, paths, names)?;
    let mut append = placed_of(alloc, file_system, LogQueue::Append, paths, names)?;
    files.append(&mut append)?;
    Ok(files)
}

/// The files of a queue.
fn placed_of<F: FileSystem>(
    alloc: Global,
    _file_system: &F,
    queue: LogQueue,
    paths: &[String],
    listings: &[Vec<String>],
) -> Result<Vec<PlacedFile>>
    requires { AllZip (λ path names. IsListing (string_bytes path) (F.disk _file_system.now)
        (map string_bytes names.items)) paths.now listings.now }
    ensures ok { IfOk result (λ files.
        ArePlacedOf queue (map string_bytes paths.now) (F.disk _file_system.now) files.items) }
    ensures err { IfErr result (FailsToFindFiles (map string_bytes paths.now) (F.disk _file_system.now)) }
{
    let found = find_files(alloc, kind_of(queue), listings)?;
    let chosen = one_each(alloc, found)?;
    let files = place_all(alloc, queue, paths, chosen.as_slice())?;
    Ok(files)
}

/// The kind of a queue's files.
fn kind_of(queue: LogQueue) -> FileKind
    ensures { result ≡ kind_of queue }
{
    match queue {
        LogQueue::Append => FileKind::Append,
        LogQueue::Rewrite => FileKind::Rewrite,
    }
}

/// The placed files of these files of a queue. Fails with `Memory`.
fn place_all(
    alloc: Global,
    queue: LogQueue,
    paths: &[String],
    chosen: &[FoundFile],
) -> Result<Vec<PlacedFile>>
    requires { All (IsListed (length paths.now)) chosen.now }
    ensures ok { IfOk result (λ files. AllZip
        (IsPlaced queue (map string_bytes paths.now) (last_number chosen.now)) chosen.now files.items) }
    ensures err { IfErr result (λ error. error ≡ Memory) }
{
    let last = last_number(chosen);
    let mut files = Vec::new(alloc);
    for found in chosen {
        let file = place(alloc, queue, paths, last, *found)?;
        files.push(file)?;
    }
    Ok(files)
}

/// The number of the last of these files; 0 if there are none.
fn last_number(files: &[FoundFile]) -> FileSeq
    ensures { result ≡ last_number files.now }
{
    match files.last() {
        Some(file) => file.seq,
        None => 0,
    }
}

/// The placed file of a file of a queue; `last` is the number of the queue's last one. Fails with `Memory`.
fn place(
    alloc: Global,
    queue: LogQueue,
    paths: &[String],
    last: FileSeq,
    found: FoundFile,
) -> Result<PlacedFile>
    requires { IsListed (length paths.now) found }
    ensures ok { IfOk result (IsPlaced queue (map string_bytes paths.now) last found) }
    ensures err { IfErr result (λ error. error ≡ Memory) }
{
    let directory = directory_of(paths, found.path_id);
    let said = FileName {
        seq: found.seq,
        signed: found.signed,
    };
    let name = kind_of(queue).name_with(alloc, said)?;
    let path = format!(in alloc; "{directory}/{name}")?;
    let temporary = temporary_in(alloc, directory)?;
    Ok(PlacedFile {
        id: FileId::new(queue, found.seq),
        is_last: found.seq == last,
        path,
        temporary,
    })
}

/// The directory with this number.
fn directory_of(paths: &[String], path_id: PathId) -> &str
    requires { path_id < length paths.now }
    ensures { result.now ≡ slice_index_or (map string_bytes paths.now) path_id [] }
{
    paths[path_id].as_str()
}

/// The path of a new file in a directory, before it is renamed to the file that it replaces.
pub(crate) fn temporary_in(alloc: Global, directory: &str) -> Result<String>
    ensures ok { IfOk result (λ path. string_bytes path ≡ temporary_in directory.now) }
    ensures err { IfErr result (λ error. error ≡ Memory) }
{
    match format!(in alloc; "{directory}/unpadded") {
        Ok(path) => Ok(path),
        Err(_) => Err(Error::Memory),
    }
}
