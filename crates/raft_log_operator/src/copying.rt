//! Copies a log's directories into memory.
use crate::fault::CommandFault;
use raft_log_command_line::Place;
use raft_log_engine::{Error, FileSystem, Handle, MemoryFileSystem, Permission};
use std::alloc::Global;
use std::io::ErrorKind;

/// How many bytes are copied at a time.
const PIECE: usize = 1 << 20;

/// Copies a log's directories and all their files, synced, into a file system in memory. Calls on it don't touch the
/// log. Fails if a directory isn't listed, if a file isn't opened or read, and if memory runs out.
pub fn copy_log<F: FileSystem>(
    alloc: Global,
    files: &F,
    place: &Place,
    copy: &mut MemoryFileSystem,
) -> Result<(), CommandFault> {
    copy_directory(alloc, files, place.directory.as_str(), copy)?;
    match &place.spill_directory {
        Some(spill) => copy_directory(alloc, files, spill.as_str(), copy),
        None => Ok(()),
    }
}

/// Copies a directory with its files.
fn copy_directory<F: FileSystem>(
    alloc: Global,
    files: &F,
    directory: &str,
    copy: &mut MemoryFileSystem,
) -> Result<(), CommandFault> {
    let mut room = vec![in alloc; 0u8; PIECE]?;
    let names = match files.list(directory) {
        Ok(names) => names,
        Err(kind) => return Err(CommandFault::at(alloc, directory, Error::Io(kind))),
    };
    if let Err(kind) = copy.create_dir(directory) {
        return Err(CommandFault::at(alloc, directory, Error::Io(kind)));
    }
    for name in names {
        let path = format!(in alloc; "{directory}/{name}")?;
        if let Err(kind) = copy_path(files, path.as_str(), copy, &mut room) {
            return Err(CommandFault::at(alloc, path.as_str(), Error::Io(kind)));
        }
    }
    Ok(())
}

/// Copies the file with this path, and syncs the copy.
fn copy_path<F: FileSystem>(
    files: &F,
    path: &str,
    copy: &mut MemoryFileSystem,
    room: &mut [u8],
) -> Result<(), ErrorKind> {
    let from = files.open(path, Permission::ReadOnly)?;
    let to = copy.create(path)?;
    copy_file(files, from, copy, to, room)?;
    copy.sync(to)
}

fn copy_file<F: FileSystem>(
    files: &F,
    from: Handle,
    copy: &mut MemoryFileSystem,
    to: Handle,
    room: &mut [u8],
) -> Result<(), ErrorKind> {
    let size = files.file_size(from)?;
    for offset in (0..size).step_by(PIECE) {
        let count = files.read_at(from, offset, room)?.count;
        copy.write_at(to, offset, &room[..count])?;
    }
    Ok(())
}
