//! The files of a real directory.
ghost use Rattle.std.specs.Prelude.{OnOk};
ghost use Rattle.raft_log_directory_copies.specs.Copies.{HoldsFiles};

use crate::fault::CopyFault;
use crate::gathering::gather;
use crate::laying::lay_out;
use crate::stored_file::StoredFile;
use raft_log_fs::FileSystem;
use std::fs::{DirEntry, File};
use std::io::{ErrorKind, Write};
use std::rt::Files;
use std::{fs, io};

/// Makes a directory in a file system, and copies each regular file of a real directory into it, synced. Links and
/// directories are skipped, and nothing in the real directory is changed.
///
/// Fails as `read_directory` does; the file system is then unchanged. Otherwise fails as `lay_out` does; the file
/// system may then have some of the files.
pub fn load_directory<R: Files<File = File> + AllocGlobal + Clone + Drop, F: FileSystem>(
    rt: &R,
    path: &str,
    file_system: &mut F,
    directory: &str,
) -> Result<(), CopyFault>
    ensures { OnOk result (HoldsFiles directory.now (F.disk file_system.new)) }
{
    let files = read_directory(rt, path)?;
    lay_out(rt.alloc(), files.as_slice(), file_system, directory)
}

/// Writes each file of a file system's directory, as it is read now, into a real directory that exists. Fails as
/// `gather` does; nothing was written then. Otherwise fails as `write_directory` does.
pub fn save_directory<R: Files<File = File> + AllocGlobal, F: FileSystem>(
    rt: &R,
    file_system: &F,
    directory: &str,
    path: &str,
) -> Result<(), CopyFault> {
    let files = gather(rt.alloc(), file_system, directory)?;
    write_directory(rt, files.as_slice(), path)
}

/// The regular files of a real directory, in no promised order. Links and directories in it are skipped. Fails with
/// `System` if it or a file can't be read, for example if it doesn't exist or a name isn't UTF-8, or with `Memory`.
pub fn read_directory<R: Files<File = File> + AllocGlobal + Clone + Drop>(
    rt: &R,
    path: &str,
) -> Result<Vec<StoredFile>, CopyFault> {
    let entries = fs::read_dir(rt, path).map_err(|error| CopyFault::of_system(
        rt.alloc(),
        path,
        error,
    ))?;
    let mut files = Vec::new(rt.alloc());
    for entry in entries {
        let entry = entry.map_err(|error| CopyFault::of_system(rt.alloc(), path, error))?;
        let found = read_entry(rt, &entry).map_err(|error| CopyFault::of_system(
            rt.alloc(),
            entry.path().as_str(),
            error,
        ))?;
        if let Some(file) = found {
            files.push(file)?;
        }
    }
    Ok(files)
}

/// Writes files into a real directory that exists, and syncs each of them, and then the directory. A file with one of
/// the names is overwritten; other files stay.
///
/// Fails with `System` if the directory doesn't exist or isn't synced, or if a file can't be written; or with `Memory`.
/// Then some files may have been written, and one may have only a part of its bytes.
pub fn write_directory<R: Files<File = File> + AllocGlobal>(
    rt: &R,
    files: &[StoredFile],
    path: &str,
) -> Result<(), CopyFault> {
    let directory = open_directory(rt, path).map_err(|error| CopyFault::of_system(
        rt.alloc(),
        path,
        error,
    ))?;
    for file in files {
        write_file(rt, path, file)?;
    }
    directory
        .sync_all()
        .map_err(|error| CopyFault::of_system(rt.alloc(), path, error))
}

/// The file of an entry; none if the entry is no regular file.
fn read_entry<R: Files<File = File> + AllocGlobal>(
    rt: &R,
    entry: &DirEntry<R>,
) -> io::Result<Option<StoredFile>> {
    if !entry.file_type()?.is_file() {
        return Ok(None);
    }
    let name = String::from_str(rt.alloc(), entry.file_name())?;
    let bytes = fs::read(rt, entry.path())?;
    Ok(Some(StoredFile { name, bytes }))
}

/// Opens a directory.
fn open_directory<R: Files<File = File>>(rt: &R, path: &str) -> io::Result<File> {
    let opened = File::open(rt, path)?;
    if !opened.metadata()?.is_dir() {
        return Err(ErrorKind::NotADirectory.into());
    }
    Ok(opened)
}

/// Writes a file into a directory.
fn write_file<R: Files<File = File> + AllocGlobal>(
    rt: &R,
    directory: &str,
    file: &StoredFile,
) -> Result<(), CopyFault> {
    let name = file.name.as_str();
    let path = format!(in rt.alloc(); "{directory}/{name}")?;
    write_synced(rt, path.as_str(), file.bytes.as_slice()).map_err(|error| CopyFault::of_system(
        rt.alloc(),
        path.as_str(),
        error,
    ))
}

/// Writes the bytes of a file, and syncs it.
fn write_synced<R: Files<File = File>>(rt: &R, path: &str, bytes: &[u8]) -> io::Result<()> {
    let mut opened = File::create(rt, path)?;
    opened.write_all(bytes)?;
    opened.sync_all()
}
