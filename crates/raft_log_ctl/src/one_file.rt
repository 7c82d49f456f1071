//! Reads one log file without the rest of its directory.
use raft_log_fs::FileSystem;
use raft_log_fs_memory::MemoryFileSystem;
use raft_log_fs_os::DirectoryFault;
use raft_log_operator::Place;
use std::fs::File;
use std::io::ErrorKind;
use std::rt::Files;
use std::{fs, io};

/// Copies the one log file whose path is the main one into a file system in memory, and returns its place there. No
/// other file of its directory is read, so the file may be a copy anywhere. A shared lock on the directory is held
/// while the file is read.
///
/// Fails with `InUse` if another program has locked the directory for itself, with `Memory`, or else with `Refused`.
pub fn read_one_file<R: Files<File = File> + AllocGlobal>(
    rt: &R,
    place: &Place,
    copy: &mut MemoryFileSystem,
) -> Result<Place, DirectoryFault> {
    let (home, path) = place.file_in(rt.alloc())?;
    let _lock = match lock(rt, home.as_str()) {
        Ok(lock) => lock,
        Err(error) => return Err(fault_of(home, error)),
    };
    match copy_file(rt, home.as_str(), path.as_str(), copy) {
        Ok(()) => Ok(Place {
            directory: path,
            spill_directory: None,
        }),
        Err(error) => Err(fault_of(path, error)),
    }
}

/// Locks a directory until the handle is dropped. Readers share the lock. Fails with `WouldBlock` if another program
/// has it for itself.
fn lock<R: Files<File = File>>(rt: &R, directory: &str) -> io::Result<File> {
    let opened = File::open(rt, directory)?;
    opened.try_lock_shared()?;
    Ok(opened)
}

/// Copies a file into its directory in memory, which is created.
fn copy_file<R: Files<File = File> + AllocGlobal>(
    rt: &R,
    directory: &str,
    path: &str,
    copy: &mut MemoryFileSystem,
) -> io::Result<()> {
    let bytes = fs::read(rt, path)?;
    copy.create_dir(directory)?;
    let file = copy.create(path)?;
    copy.write_at(file, 0, bytes.as_slice())?;
    Ok(())
}

/// The fault for an error of locking a directory or reading a file.
fn fault_of(path: String, error: io::Error) -> DirectoryFault {
    match error.kind() {
        ErrorKind::WouldBlock => DirectoryFault::InUse(path),
        ErrorKind::OutOfMemory => DirectoryFault::Memory,
        _ => DirectoryFault::Refused { path, error },
    }
}
