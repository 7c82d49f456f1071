//! Space that a log still has on a full disk. Each directory of a log that is open for writing has a file of zeros, if
//! there was room. It is truncated to nothing when its space is needed, and filled again after a deletion in the
//! directory.
//!
//! Two kinds of writes may use that space. A queue that begins a file has to write the file's header, and can't go back
//! to the file before it. A purge has to write what is live into Rewrite before it deletes files, and only that makes
//! space. No record of a user makes the reserve be given: it fails, and the log runs on. But the reserve is given
//! whole, so later records of users can take what the header or the record of Rewrite leaves of it.
use super::file_device::PIECE;
use super::growing::{extend, grow};
use super::locked_directory::{LockedDirectory, directory_of};
use super::open_file::OpenFile;
use raft_log_fs_traced::Attempt;
use std::fs::{File, OpenOptions};
use std::io;
use std::io::ErrorKind;
use std::rt::Files;

/// How many bytes a directory keeps in reserve.
const SIZE: usize = 4 * PIECE;

/// The ending of the names of Rewrite's files.
const REWRITE: &str = ".rewrite";

/// The reserve of a directory.
#[derive(Drop)]
pub(crate) struct Reserve {
    path: String,
    // Whether the file has all its bytes.
    is_filled: bool,
}

impl Reserve {
    /// The reserve that will be in the file at this path: nothing yet.
    pub fn new(path: String) -> Reserve {
        Reserve {
            path,
            is_filled: false,
        }
    }

    /// Fills the reserve, unless it is full. If there is no room for it, or a call fails, the directory has none.
    pub fn fill<R: Files<File = File>>(&mut self, rt: &R, zeros: &[u8]) {
        if !self.is_filled {
            self.is_filled = matches!(self.grown(rt, zeros), Ok(Attempt::Made));
        }
    }

    /// Makes the reserve's file if it isn't there, and grows it.
    fn grown<R: Files<File = File>>(&self, rt: &R, zeros: &[u8]) -> io::Result<Attempt> {
        let opened = OpenOptions::new()
            .write(true)
            .create(true)
            .open(rt, self.path.as_str())?;
        grow(&opened, zeros, SIZE)
    }

    /// Gives the reserve's space away. Returns whether there was any and the file was truncated.
    fn give<R: Files<File = File>>(&mut self, rt: &R) -> bool {
        let was_filled = self.is_filled;
        self.is_filled = false;
        was_filled && self.emptied(rt).is_ok()
    }

    /// Truncates the reserve's file to nothing, and syncs that: some systems give a file's blocks to others only then.
    fn emptied<R: Files<File = File>>(&self, rt: &R) -> io::Result<()> {
        let opened = OpenOptions::new().write(true).open(rt, self.path.as_str())?;
        opened.set_len(0)?;
        opened.sync_all()
    }
}

/// Extends a file as `extend` does. If there is no room for a header, or for a record of Rewrite, it gives the reserve
/// of the file's directory away and tries once more.
pub(crate) fn extend_from_reserve<R: Files<File = File>>(
    rt: &R,
    directories: &mut [LockedDirectory],
    opened: &OpenFile,
    offset: usize,
    bytes: &[u8],
) -> io::Result<Attempt> {
    let path = opened.path.as_str();
    match extend(&opened.file, offset, bytes)? {
        Attempt::Undone if may_use(path, offset) && give(rt, directories, path) => {
            extend(&opened.file, offset, bytes)
        }
        attempt => Ok(attempt),
    }
}

/// Makes a file whose name is free. If there is no room for it, it gives the reserve of the file's directory away and
/// tries once more.
pub(crate) fn create_from_reserve<R: Files<File = File>>(
    rt: &R,
    directories: &mut [LockedDirectory],
    path: &str,
) -> io::Result<File> {
    match create(rt, path) {
        Err(error) if error.kind() == ErrorKind::StorageFull && give(rt, directories, path) => {
            create(rt, path)
        }
        made => made,
    }
}

/// Makes a file whose name is free.
fn create<R: Files<File = File>>(rt: &R, path: &str) -> io::Result<File> {
    OpenOptions::new()
        .read(true)
        .write(true)
        .create_new(true)
        .open(rt, path)
}

/// Fills the reserve of each directory.
pub(crate) fn fill_reserves<R: Files<File = File>>(
    rt: &R,
    directories: &mut [LockedDirectory],
    zeros: &[u8],
) {
    for directory in directories.iter_mut() {
        directory.reserve.fill(rt, zeros);
    }
}

/// Fills the reserve of a file's directory.
pub(crate) fn fill_beside<R: Files<File = File>>(
    rt: &R,
    directories: &mut [LockedDirectory],
    path: &str,
    zeros: &[u8],
) {
    let home = directory_of(path);
    for directory in directories.iter_mut() {
        if directory.is_at(home) {
            directory.reserve.fill(rt, zeros);
        }
    }
}

/// Gives away the reserve of a file's directory. Returns whether there was any and its file was truncated.
fn give<R: Files<File = File>>(rt: &R, directories: &mut [LockedDirectory], path: &str) -> bool {
    let home = directory_of(path);
    for directory in directories.iter_mut() {
        if directory.is_at(home) {
            return directory.reserve.give(rt);
        }
    }
    false
}

/// Whether a write past the end of a file may use the reserve: a header, or a record of Rewrite.
fn may_use(path: &str, offset: usize) -> bool {
    offset == 0 || path.ends_with(REWRITE)
}
