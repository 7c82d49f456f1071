//! The files of a queue are found in a log's directories.

ghost use Rattle.std.specs.Prelude.{◌≡◌, ◌<◌, [], ◌∷◌, ◌++◌, All, IfOk, OnOk, length, map, slice_index_or};
ghost use Rattle.std.specs.List.{AllZip};
ghost use Rattle.std.specs.String.{string_bytes};
ghost use Rattle.raft_log_fs.specs.Reading.{IsListing};
ghost use Rattle.raft_log_recovery_scan.specs.Found.{found_path};
ghost use Rattle.raft_log_inspection.specs.Intact.{kind_of};
ghost use Rattle.raft_log_inspection.specs.Steps.{AreOrderedFiles, AreListed};

use crate::fault::InspectFault;
use raft_log_fs::FileSystem;
use raft_log_record_base::LogQueue;
use raft_log_recovery_scan::scanning::found::{FoundFile, find_files};
use raft_log_recovery_scan::{FileKind, FileName};
use std::alloc::Global;

/// The log files of a queue in these directories, in the order of their numbers. If two have one number, the one in the
/// earlier directory comes first; in one directory, the one without a sign.
///
/// Fails with `Path` if a directory isn't listed. Fails with `Log` if a file's name begins with a number and isn't that
/// number's, or if memory runs out.
pub(crate) fn find_queue<F: FileSystem>(
    alloc: Global,
    files: &F,
    queue: LogQueue,
    paths: &[String],
) -> Result<Vec<FoundFile>, InspectFault>
    ensures { IfOk result (λ found. AreOrderedFiles (kind_of queue) (map string_bytes paths.now)
        (F.disk files.now) found.items) }
{
    let listings = list_all(alloc, files, paths)?;
    let mut found = find_files(alloc, kind_of(queue), listings.as_slice())?;
    found.sort_by_key(|file| (file.seq, file.path_id, file.signed))?;
    Ok(found)
}

/// The names of the files of each of these directories.
fn list_all<F: FileSystem>(
    alloc: Global,
    files: &F,
    paths: &[String],
) -> Result<Vec<Vec<String>>, InspectFault>
    ensures { IfOk result (λ listings. AreListed paths.now (F.disk files.now) listings.items) }
{
    let mut listings = Vec::new(alloc);
    for path in paths {
        match files.list(path.as_str()) {
            Ok(names) => listings.push(names)?,
            Err(kind) => return Err(InspectFault::refused(alloc, path.as_str(), kind)),
        }
    }
    Ok(listings)
}

/// The kind of a queue's files.
pub(crate) fn kind_of(queue: LogQueue) -> FileKind
    ensures { result ≡ kind_of queue }
{
    match queue {
        LogQueue::Append => FileKind::Append,
        LogQueue::Rewrite => FileKind::Rewrite,
    }
}

/// The path of a file that was found.
pub(crate) fn path_of(
    alloc: Global,
    kind: FileKind,
    paths: &[String],
    file: FoundFile,
) -> Result<String, InspectFault>
    requires { file.path_id < length paths.now }
    ensures { IfOk result (λ path.
        string_bytes path ≡ found_path kind (map string_bytes paths.now) file) }
{
    let said = FileName {
        seq: file.seq,
        signed: file.signed,
    };
    let name = kind.name_with(alloc, said)?;
    let directory = paths[file.path_id].as_str();
    let path = format!(in alloc; "{directory}/{name}")?;
    Ok(path)
}
