//! Scans a log's directories: makes missing ones, and finds, sorts and opens their files.

ghost use Rattle.std.specs.Prelude.{◌≡◌, true, All, IfOk, IfErr, map};
ghost use Rattle.std.specs.List.{AllZip};
ghost use Rattle.std.specs.String.{string_bytes};
ghost use Rattle.raft_log_fs.specs.Reading.{IsListing};
ghost use Rattle.raft_log_recovery_scan.specs.Found.{FailsAmongAll};
ghost use Rattle.raft_log_recovery_scan.specs.Scanned.{FailsToFindFiles, FailsToScan, IsQueueIn, IsReserveIn, IsRunAmong, IsScanned, Scans};

pub mod directories;
pub mod found;
pub mod metadata;
pub mod opening;
pub mod runs;

use crate::file_kind::FileKind;
use directories::{list_directories, make_directories};
use found::{FoundFile, find_files};
use log::Log;
use opening::{open_files, open_queue};
use raft_log_active_file::File;
use raft_log_file_settings::RecoveryMode;
use raft_log_fs::{FileSystem, Permission};
use raft_log_record_base::Result;
use runs::keep_run;
use std::alloc::Global;

/// The files in a log's directories, open.
#[derive(Drop, Debug)]
pub struct ScannedFiles {
    /// Append's files, in the order of their numbers.
    pub append: Vec<File>,
    /// Rewrite's files, in the order of their numbers.
    pub rewrite: Vec<File>,
    /// The reserved files, kept for recycling.
    pub reserved: Vec<File>,
}

/// Finds and opens the files of both queues, and the reserved ones, in these directories, the main one first. Makes
/// missing directories; changes no file.
/// - The last file of a queue is opened for writing, and under `TolerateAnyCorruption` each of its files. All others,
///   and the reserved ones, are opened for reading.
/// - For each kind, only the files after the last gap are returned. The others stay in their directories, and a queue's
///   are logged. A gap is a missing number, or two files with one number.
/// - A file's name may have a plus sign before the number.
///
/// Fails:
/// - with `Other` if a file has the path of a directory
/// - with `Corruption` if a name begins with a number and has more between it and the suffix
/// - with `Io` if a directory isn't made or the file system has stopped
/// - with `Memory`
///
/// If it fails, some of the directories may have been made, and nothing else changed.
pub fn scan<F: FileSystem, L: Log>(
    alloc: Global,
    rt: &L,
    file_system: &mut F,
    paths: &[String],
    mode: RecoveryMode,
) -> Result<ScannedFiles>
    ensures ok { IfOk result (λ scanned. Scans (map string_bytes paths.now) mode scanned
        (F.disk file_system.old) (F.disk file_system.new)) }
    ensures err { IfErr result (λ error. FailsToScan (map string_bytes paths.now) error
        (F.disk file_system.old) (F.disk file_system.new)) }
{
    make_directories(alloc, file_system, paths)?;
    let scanned = scan_files(alloc, rt, file_system, paths, mode)?;
    Ok(scanned)
}

/// Finds and opens the files in these directories.
fn scan_files<F: FileSystem, L: Log>(
    alloc: Global,
    rt: &L,
    file_system: &F,
    paths: &[String],
    mode: RecoveryMode,
) -> Result<ScannedFiles>
    requires { All (λ path. (F.disk file_system.now).directories path ≡ true) (map string_bytes paths.now) }
    ensures ok { IfOk result (IsScanned (map string_bytes paths.now) (F.disk file_system.now) mode) }
    ensures err { IfErr result (FailsToFindFiles (map string_bytes paths.now) (F.disk file_system.now)) }
{
    let listings = list_directories(alloc, file_system, paths)?;
    let names = listings.as_slice();
    let (append, rewrite) = (FileKind::Append, FileKind::Rewrite);
    let append = scan_queue(alloc, rt, file_system, append, paths, names, mode)?;
    let rewrite = scan_queue(alloc, rt, file_system, rewrite, paths, names, mode)?;
    let reserved = scan_reserved(alloc, rt, file_system, paths, names)?;
    Ok(ScannedFiles {
        append,
        rewrite,
        reserved,
    })
}

/// Finds and opens the files of a queue.
fn scan_queue<F: FileSystem, L: Log>(
    alloc: Global,
    rt: &L,
    file_system: &F,
    kind: FileKind,
    paths: &[String],
    listings: &[Vec<String>],
    mode: RecoveryMode,
) -> Result<Vec<File>>
    requires { AllZip (λ path names. IsListing (string_bytes path) (F.disk file_system.now)
        (map string_bytes names.items)) paths.now listings.now }
    ensures ok { IfOk result (λ files.
        IsQueueIn kind (map string_bytes paths.now) (F.disk file_system.now) mode files.items) }
    ensures err { IfErr result (FailsToFindFiles (map string_bytes paths.now) (F.disk file_system.now)) }
{
    let kept = scan_run(alloc, rt, kind, listings)?;
    let files = open_queue(alloc, file_system, kind, paths, mode, kept.as_slice())?;
    Ok(files)
}

/// Finds and opens the reserved files.
fn scan_reserved<F: FileSystem, L: Log>(
    alloc: Global,
    rt: &L,
    file_system: &F,
    paths: &[String],
    listings: &[Vec<String>],
) -> Result<Vec<File>>
    requires { AllZip (λ path names. IsListing (string_bytes path) (F.disk file_system.now)
        (map string_bytes names.items)) paths.now listings.now }
    ensures ok { IfOk result (λ files.
        IsReserveIn (map string_bytes paths.now) (F.disk file_system.now) files.items) }
    ensures err { IfErr result (FailsToFindFiles (map string_bytes paths.now) (F.disk file_system.now)) }
{
    let kind = FileKind::Reserved;
    let kept = scan_run(alloc, rt, kind, listings)?;
    let files = open_files(
        alloc,
        file_system,
        kind,
        paths,
        Permission::ReadOnly,
        kept.as_slice(),
    )?;
    Ok(files)
}

/// The files of a kind that are kept, among those with these names. Logs which files of a queue aren't.
fn scan_run<L: Log>(
    alloc: Global,
    rt: &L,
    kind: FileKind,
    listings: &[Vec<String>],
) -> Result<Vec<FoundFile>>
    ensures ok { IfOk result (λ kept.
        IsRunAmong kind (map (λ names. map string_bytes names.items) listings.now)
        kept.items) }
    ensures err { IfErr result
        (FailsAmongAll kind (map (λ names. map string_bytes names.items) listings.now)) }
{
    let found = find_files(alloc, kind, listings)?;
    let kept = keep_run(rt, kind, found)?;
    Ok(kept)
}
