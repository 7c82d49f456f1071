//! A directory of a log, locked while it is open.
use super::load::Access;
use super::reserve::Reserve;
use raft_log_fs_traced::Attempt;
use std::alloc::Global;
use std::fs::{File, OpenOptions};
use std::io;
use std::io::ErrorKind;
use std::os::unix::fs::FileExt;
use std::path::Path;
use std::rt::Files;

/// A directory of a log. It is locked until this is dropped, and so is the file `LOCK` in it, by which programs built
/// on raft-engine keep each other out. A writer has both locks alone; readers share them.
#[derive(Drop)]
pub(crate) struct LockedDirectory {
    /// The space that it keeps for a full disk.
    pub reserve: Reserve,
    // The path by which it was opened, and for what.
    path: String,
    access: Access,
    directory: File,
    // Whether the last attempt to make a file in it longer found no space.
    is_full: bool,
    // The file `LOCK`. A reader has none if the file isn't there, as it makes no file.
    lock: Option<File>,
}

impl LockedDirectory {
    /// Locks an open directory, but not its file `LOCK`, and fills no reserve. Fails with `WouldBlock` if another open
    /// of the directory has the lock.
    pub fn lock(
        alloc: Global,
        directory: File,
        path: &str,
        access: Access,
    ) -> io::Result<LockedDirectory> {
        take(&directory, access)?;
        Ok(LockedDirectory {
            reserve: Reserve::new(format!(in alloc; "{path}/RESERVE")?),
            path: String::from_str(alloc, path)?,
            access,
            directory,
            is_full: false,
            lock: None,
        })
    }

    /// Locks the file `LOCK` in the directory; a writer makes it if it isn't there. Fails with `WouldBlock` if another
    /// program has locked it.
    pub fn lock_file<R: Files<File = File>>(&mut self, rt: &R, path: &str) -> io::Result<()> {
        let is_writer = self.access == Access::ReadWrite;
        let opened = OpenOptions::new()
            .read(true)
            .write(is_writer)
            .create(is_writer)
            .open(rt, path);
        match opened {
            Err(error) if error.kind() == ErrorKind::NotFound && !is_writer => Ok(()),
            Err(error) => Err(error),
            Ok(file) => {
                take(&file, self.access)?;
                self.lock = Some(file);
                Ok(())
            }
        }
    }

    /// The path that the file `LOCK` notes. None if the file isn't there, or isn't a whole line of text.
    pub fn noted(&self, alloc: Global) -> io::Result<Option<String>> {
        let Some(lock) = &self.lock else {
            return Ok(None);
        };
        let mut bytes = vec![in alloc; 0u8; lock.metadata()?.len() as usize]?;
        lock.read_exact_at(&mut bytes, 0)?;
        if bytes.pop() != Some(b'\n') {
            return Ok(None);
        }
        Ok(String::from_utf8(bytes).ok())
    }

    /// Makes a line the content of the file `LOCK`, and syncs it. A reader changes nothing.
    pub fn note(&self, line: &str) -> io::Result<()> {
        match &self.lock {
            Some(lock) if self.access == Access::ReadWrite => {
                lock.set_len(0)?;
                lock.write_all_at(line.as_bytes(), 0)?;
                lock.sync_all()
            }
            _ => Ok(()),
        }
    }

    /// Whether a path is the one by which it was opened. A slash at the end of either makes no difference.
    pub fn is_at(&self, path: &str) -> bool {
        Path::new(self.path.as_str()) == Path::new(path)
    }

    /// Syncs the directory.
    pub fn sync(&self) -> io::Result<()> {
        self.directory.sync_all()
    }
}

/// Locks an open file or directory: alone for writing, shared for reading.
fn take(file: &File, access: Access) -> io::Result<()> {
    match access {
        Access::ReadWrite => file.try_lock()?,
        Access::ReadOnly => file.try_lock_shared()?,
    }
    Ok(())
}

/// Notes for a file's directory whether an attempt to make the file longer found no space. Returns whether it did and
/// the last attempt in that directory didn't. If the directory isn't one of these, nothing is known of the last one.
pub(crate) fn begins_to_lack(
    directories: &mut [LockedDirectory],
    path: &str,
    attempt: Attempt,
) -> bool {
    let is_full = matches!(attempt, Attempt::Undone);
    let home = directory_of(path);
    for directory in directories.iter_mut() {
        if directory.is_at(home) {
            let was_full = directory.is_full;
            directory.is_full = is_full;
            return is_full && !was_full;
        }
    }
    is_full
}

/// The directory that a file is in; `.` if the path names none.
pub(crate) fn directory_of(path: &str) -> &str {
    match Path::new(path).parent() {
        Some(parent) if !parent.as_str().is_empty() => parent.as_str(),
        _ => ".",
    }
}
