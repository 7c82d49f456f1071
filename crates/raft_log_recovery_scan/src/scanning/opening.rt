//! The files that were found are opened.

ghost use Rattle.std.specs.Prelude.{◌≡◌, ◌+◌, ◌<◌, ◌^◌, [], ◌∷◌, ◌++◌, IfOk, IfErr, All, map, length, slice_index_or};
ghost use Rattle.std.specs.String.{string_bytes};
ghost use Rattle.raft_log_file_format.specs.Name.{IsNameRefusal};
ghost use Rattle.raft_log_record_base.specs.declared.errors.Error.TheVariants.{Memory};
ghost use Rattle.raft_log_record_base.specs.declared.pipe_log.Version.TheVariants.{V1};
ghost use Rattle.raft_log_active_file.specs.Layout.{place_of};
ghost use Rattle.raft_log_recovery_scan.specs.Found.{FileLiesIn, found_path};
ghost use Rattle.raft_log_recovery_scan.specs.Opened.{AreOpen, FailsToLook, IsOpenFile, IsOpenQueue, is_reserved, permission_before};

use super::directories::refusal;
use super::found::FoundFile;
use crate::file_kind::{FileKind, FileName};
use raft_log_active_file::{File, PathId, place_of};
use raft_log_file_format::LogFileFormat;
use raft_log_file_settings::RecoveryMode;
use raft_log_fs::{FileSystem, Handle, Permission};
use raft_log_record_base::{Error, Result};
use std::alloc::Global;

/// Opens the files of a queue for reading, and the last one for writing too; under `TolerateAnyCorruption` each of them
/// for writing too. Their headers aren't read. Fails with `Io` if the file system has stopped, or with `Memory`.
pub fn open_queue<F: FileSystem>(
    alloc: Global,
    file_system: &F,
    kind: FileKind,
    paths: &[String],
    mode: RecoveryMode,
    found: &[FoundFile],
) -> Result<Vec<File>>
    requires { All (FileLiesIn kind (map string_bytes paths.now) (F.disk file_system.now)) found.now }
    ensures ok { IfOk result (λ files. IsOpenQueue kind (map string_bytes paths.now)
        (F.disk file_system.now) mode found.now files.items) }
    ensures err { IfErr result (FailsToLook (F.disk file_system.now)) }
{
    let count = found.len();
    if count == 0 {
        return Ok(Vec::new(alloc));
    }
    let permission = permission_before(mode);
    let mut files = open_files(
        alloc,
        file_system,
        kind,
        paths,
        permission,
        &found[..count - 1],
    )?;
    let last = open_file(
        alloc,
        file_system,
        kind,
        paths,
        Permission::ReadWrite,
        found[count - 1],
    )?;
    files.push(last)?;
    Ok(files)
}

/// Opens files with this permission. Fails with `Io` if the file system has stopped, or with `Memory`.
pub fn open_files<F: FileSystem>(
    alloc: Global,
    file_system: &F,
    kind: FileKind,
    paths: &[String],
    permission: Permission,
    found: &[FoundFile],
) -> Result<Vec<File>>
    requires { All (FileLiesIn kind (map string_bytes paths.now) (F.disk file_system.now)) found.now }
    ensures ok { IfOk result (λ files. AreOpen kind (map string_bytes paths.now)
        (F.disk file_system.now) permission found.now files.items) }
    ensures err { IfErr result (FailsToLook (F.disk file_system.now)) }
{
    let mut files = Vec::new(alloc);
    for one in found {
        let file = open_file(alloc, file_system, kind, paths, permission, *one)?;
        files.push(file)?;
    }
    Ok(files)
}

/// Opens a file.
fn open_file<F: FileSystem>(
    alloc: Global,
    file_system: &F,
    kind: FileKind,
    paths: &[String],
    permission: Permission,
    found: FoundFile,
) -> Result<File>
    requires { FileLiesIn kind (map string_bytes paths.now) (F.disk file_system.now) found }
    ensures ok { IfOk result (λ file. IsOpenFile kind (map string_bytes paths.now)
        (F.disk file_system.now) permission found file) }
    ensures err { IfErr result (FailsToLook (F.disk file_system.now)) }
{
    let path = path_of(alloc, kind, paths, found)?;
    let handle = match file_system.open(path.as_str(), permission) {
        Ok(handle) => handle,
        Err(kind) => return Err(refusal(file_system.has_stopped(), kind)),
    };
    Ok(file_of(kind, paths.len(), found, handle))
}

/// The file of a handle, in one of so many directories.
fn file_of(kind: FileKind, directories: usize, found: FoundFile, handle: Handle) -> File
    requires { directories + found.path_id < 2 ^ 64 }
    ensures seq { result.seq ≡ found.seq }
    ensures path_id { result.path_id ≡ place_of directories found.path_id found.signed }
    ensures reserved { result.reserved ≡ is_reserved kind }
    ensures format { result.format ≡ record { version = V1; alignment = 0 } }
    ensures handle { result.handle ≡ handle }
{
    File {
        seq: found.seq,
        handle,
        format: LogFileFormat::default(),
        path_id: place_of(directories, found.path_id, found.signed),
        reserved: is_reserved(kind),
    }
}

/// Whether files of this kind have reserved names.
fn is_reserved(kind: FileKind) -> bool
    ensures { result ≡ is_reserved kind }
{
    match kind {
        FileKind::Reserved => true,
        FileKind::Append | FileKind::Rewrite => false,
    }
}

/// The permission for the files before a queue's last one.
fn permission_before(mode: RecoveryMode) -> Permission
    ensures { result ≡ permission_before mode }
{
    match mode {
        RecoveryMode::TolerateAnyCorruption => Permission::ReadWrite,
        RecoveryMode::AbsoluteConsistency | RecoveryMode::TolerateTailCorruption => {
            Permission::ReadOnly
        }
    }
}

/// The path of a file.
pub(crate) fn path_of(
    alloc: Global,
    kind: FileKind,
    paths: &[String],
    found: FoundFile,
) -> Result<String>
    requires { found.path_id < length paths.now }
    ensures ok { IfOk result (λ path.
        string_bytes path ≡ found_path kind (map string_bytes paths.now) found) }
    ensures err { IfErr result (IsNameRefusal found.seq) }
{
    let said = FileName {
        seq: found.seq,
        signed: found.signed,
    };
    let name = kind.name_with(alloc, said)?;
    let directory = directory_of(paths, found.path_id);
    let path = join(alloc, directory, name.as_str())?;
    Ok(path)
}

/// The directory with this index.
fn directory_of(paths: &[String], path_id: PathId) -> &str
    requires { path_id < length paths.now }
    ensures { result.now ≡ slice_index_or (map string_bytes paths.now) path_id [] }
{
    paths[path_id].as_str()
}

/// The path of a name in a directory.
fn join(alloc: Global, directory: &str, name: &str) -> Result<String>
    ensures ok { IfOk result (λ path. string_bytes path ≡ directory.now ++ 47 ∷ name.now) }
    ensures err { IfErr result (λ error. error ≡ Memory) }
{
    match format!(in alloc; "{directory}/{name}") {
        Ok(path) => Ok(path),
        Err(_) => Err(Error::Memory),
    }
}
