//! Opens the directories of a log: locks and loads them, and makes them durable if they may be written.
ghost use Rattle.std.specs.Prelude.{◌≡◌, List, ℕ, None, IfOk};
ghost use Rattle.raft_log_fs_traced.specs.Directory.{calls_of};
ghost use Rattle.raft_log_fs_traced.specs.Space.{spaces_of};
ghost use Rattle.raft_log_fs_os.specs.Loading.{StandsAsFound, StartsFresh};

use super::fault::DirectoryFault;
use super::file_device::{FileDevice, PIECE};
use super::load::{Access, Found};
use super::log_names::{ListedFile, list_files};
use super::making_durable::{sync_directories, write_back_last_files};
use super::reserve::fill_reserves;
use super::second_directory::settle_second;
use raft_log_fs::FileSystem;
use raft_log_fs_traced::{Device, DirectoryFileSystem};
use std::fs::File;
use std::io::ErrorKind;
use std::path::Path;
use std::rt::Files;
use std::thread::Threads;
use std::{fs, io};

/// Opens a log's main directory, and its second one if it has one, and returns the file system over them.
///
/// - Both directories must exist. Each is locked until the file system is dropped, and so is the file `LOCK` in it.
/// - The file `LOCK` is made if it isn't there. It keeps out programs built on raft-engine. That of the main directory
///   notes the path of the second one. A later open without the second one fails with `Incomplete`, unless that has no
///   file of a queue any more.
/// - Each directory gets a file `RESERVE` of 256 KiB, if there is room. On a full disk its space is given whole for a new
///   file with its header, or for a record of Rewrite. Later records can take what is left of it.
/// - Each file with a log file's name is synced and read, several in parallel. If such an entry is no regular file, the
///   open fails with `Irregular`. Entries with other names are ignored.
/// - The last file of either queue is written back with the same bytes and synced; then the directories are synced.
///   What the file system shows is therefore durable, even if a sync failed earlier in this boot of the machine.
///   `CALLING.md` lists the exceptions.
/// - Paths are those of the operating system; the log's settings must spell them the same. The file system makes no
///   other directory, as that would have no lock.
///
/// If it fails, no byte of a log file and no name has changed, but files `LOCK` and `RESERVE` may have been made. The
/// contract has clauses only for success.
pub fn open_directories<
    R: Files<File = File> + Threads + Eprint + AllocGlobal + Clone + Sync + Drop,
>(
    rt: &R,
    directory: &str,
    spill_directory: Option<&str>,
) -> Result<DirectoryFileSystem<FileDevice<R>>, DirectoryFault>
    ensures fresh { IfOk result (λ system. StartsFresh
        (⟦<DirectoryFileSystem<FileDevice<R>> as FileSystem>⟧.disk system)) }
    ensures unset { IfOk result (λ system. (directory : List ℕ)
        → spaces_of ⟦<FileDevice<R> as Device>⟧ system directory ≡ None) }
    ensures found { IfOk result (λ system.
        StandsAsFound (calls_of ⟦<FileDevice<R> as Device>⟧ system)) }
{
    let mut found = Found::new(rt.alloc(), Access::ReadWrite);
    let listed = load_all(rt, &mut found, directory, spill_directory)?;
    let Found {
        storage,
        files,
        mut directories,
        ..
    } = found;
    let zeros = vec![in rt.alloc(); 0u8; PIECE]?;
    fill_reserves(rt, &mut directories, &zeros);
    let mut device = FileDevice::new(
        rt.clone()?,
        files,
        directories,
        zeros,
        &storage,
        Access::ReadWrite,
    );
    write_back_last_files(rt.alloc(), &mut device, &storage, listed.as_slice())?;
    sync_directories(rt.alloc(), &mut device, directory, spill_directory)?;
    Ok(DirectoryFileSystem::new(storage, device))
}

/// Opens the directories of a log only for reading, for a check or a copy. The open syncs and writes nothing, so it
/// also works on a read-only mount.
///
/// Several readers may have a log open at once, but no writer. This fails as `open_directories` does, and makes no
/// file.
///
/// - A write, growth or truncation that would change a file that was found fails and stops the file system.
/// - Deletions and renames of such files aren't prevented. A deletion in one of the directories also makes `RESERVE`.
/// - Files and directories may be made.
pub fn open_directories_for_reading<
    R: Files<File = File> + Threads + Eprint + AllocGlobal + Clone + Sync + Drop,
>(
    rt: &R,
    directory: &str,
    spill_directory: Option<&str>,
) -> Result<DirectoryFileSystem<FileDevice<R>>, DirectoryFault>
    ensures fresh { IfOk result (λ system. StartsFresh
        (⟦<DirectoryFileSystem<FileDevice<R>> as FileSystem>⟧.disk system)) }
    ensures unset { IfOk result (λ system. (directory : List ℕ)
        → spaces_of ⟦<FileDevice<R> as Device>⟧ system directory ≡ None) }
    ensures found { IfOk result (λ system.
        StandsAsFound (calls_of ⟦<FileDevice<R> as Device>⟧ system)) }
{
    let mut found = Found::new(rt.alloc(), Access::ReadOnly);
    load_all(rt, &mut found, directory, spill_directory)?;
    let Found {
        storage,
        files,
        directories,
        ..
    } = found;
    let zeros = vec![in rt.alloc(); 0u8; PIECE]?;
    let device = FileDevice::new(
        rt.clone()?,
        files,
        directories,
        zeros,
        &storage,
        Access::ReadOnly,
    );
    Ok(DirectoryFileSystem::new(storage, device))
}

/// Makes a directory if nothing has the path, and syncs its parent directory, so that no crash removes it. The parent
/// is synced even if the path exists: a process that made it may have been killed before its sync.
///
/// A fault names `directory`. It is `Missing` or `NoDirectory` if the parent isn't there or is no directory. If the
/// path is a file's, the call succeeds.
pub fn make_directory<R: Files<File = File> + AllocGlobal>(
    rt: &R,
    directory: &str,
) -> Result<(), DirectoryFault> {
    match make_durable(rt, directory) {
        Ok(()) => Ok(()),
        Err(error) => Err(DirectoryFault::of_directory(rt.alloc(), directory, error)),
    }
}

/// Makes a directory if nothing has the path, and syncs its parent directory.
fn make_durable<R: Files<File = File>>(rt: &R, directory: &str) -> io::Result<()> {
    if let Err(error) = fs::create_dir(rt, directory) {
        if error.kind() != ErrorKind::AlreadyExists {
            return Err(error);
        }
    }
    let home = match Path::new(directory).parent() {
        Some(home) if !home.as_str().is_empty() => home.as_str(),
        _ => ".",
    };
    File::open(rt, home)?.sync_all()
}

/// Locks the directories of a log, then loads their log files. Returns these.
fn load_all<R: Files<File = File> + Threads + AllocGlobal + Clone + Sync + Drop>(
    rt: &R,
    found: &mut Found,
    directory: &str,
    spill_directory: Option<&str>,
) -> Result<Vec<ListedFile>, DirectoryFault> {
    lock(rt, found, directory)?;
    let Some(other) = spill_directory else {
        settle_second(rt, found, directory, None)?;
        return load(rt, found, directory);
    };
    lock(rt, found, other)?;
    settle_second(rt, found, directory, Some(other))?;
    let mut listed = load(rt, found, directory)?;
    listed.append(&mut load(rt, found, other)?)?;
    Ok(listed)
}

/// Locks a directory and the file `LOCK` in it.
fn lock<R: Files<File = File> + AllocGlobal>(
    rt: &R,
    found: &mut Found,
    directory: &str,
) -> Result<(), DirectoryFault> {
    let alloc = rt.alloc();
    let path = format!(in alloc; "{directory}/LOCK")?;
    let mut locked = match found.add_directory(rt, directory) {
        Ok(locked) => locked,
        Err(error) => return Err(DirectoryFault::of_directory(alloc, directory, error)),
    };
    if let Err(error) = locked.lock_file(rt, path.as_str()) {
        return Err(DirectoryFault::of_lock(alloc, directory, path.as_str(), error));
    }
    found.directories.push(locked)?;
    Ok(())
}

/// Loads the log files in a directory. Returns them.
fn load<R: Files<File = File> + Threads + AllocGlobal + Clone + Sync + Drop>(
    rt: &R,
    found: &mut Found,
    directory: &str,
) -> Result<Vec<ListedFile>, DirectoryFault> {
    let listed = list_files(rt, directory)?;
    let opened = open_files(rt, found, listed.as_slice())?;
    match found.load_files(rt, listed.as_slice(), opened) {
        Ok(()) => Ok(listed),
        Err(error) => Err(DirectoryFault::of_files(rt.alloc(), directory, error)),
    }
}

/// Opens files. If one can't be opened, the error names it.
fn open_files<R: Files<File = File> + AllocGlobal>(
    rt: &R,
    found: &Found,
    listed: &[ListedFile],
) -> Result<Vec<File>, DirectoryFault> {
    let mut opened = Vec::with_capacity(rt.alloc(), listed.len())?;
    for file in listed {
        let path = file.path.as_str();
        match found.open(rt, path) {
            Ok(file) => opened.push(file)?,
            Err(error) => return Err(DirectoryFault::of_files(rt.alloc(), path, error)),
        }
    }
    Ok(opened)
}
