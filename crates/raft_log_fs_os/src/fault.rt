//! Why directories weren't opened.
use std::alloc::{AllocError, AllocFailed, Global};
use std::io;
use std::io::ErrorKind;
use thiserror::Error;

/// Why directories weren't opened. No byte and no name of a log file was changed, but `LOCK` and `RESERVE` may have
/// been made.
#[derive(Debug, Drop, Error)]
pub enum DirectoryFault {
    /// Nothing is at the path.
    #[error("there is no directory {0:?}")]
    Missing(String),
    /// The path is no directory.
    #[error("{0:?} is no directory")]
    NoDirectory(String),
    /// Another open has a lock on the directory or on its file `LOCK`, in this or another process. Also if both paths
    /// of an open for writing name one directory, spelled differently.
    #[error("{0:?} is in use by another log")]
    InUse(String),
    /// An entry with the name of a log file is no regular file, but for example a link or a directory.
    #[error("{0:?} has the name of a log file and is no regular file")]
    Irregular(String),
    /// The same path was given for both directories.
    #[error("{0:?} is named twice")]
    Twice(String),
    /// No second directory was given, and the file `LOCK` of this log notes one that has files of a queue or can't be
    /// listed.
    #[error("the log in {directory:?} has a second directory, {second:?}, which has to be opened with it")]
    Incomplete {
        /// The log's main directory.
        directory: String,
        /// The second one, as `LOCK` notes it.
        second: String,
    },
    /// The operating system failed a call, for example for lack of permission.
    #[error("{path:?}: {error}")]
    Refused {
        /// The path of the call. If a file couldn't be synced or read, that of its directory.
        path: String,
        /// The error that the operating system returned.
        error: io::Error,
    },
    /// Out of memory.
    #[error("out of memory")]
    Memory,
}

impl DirectoryFault {
    /// The fault for an error of opening and locking a directory.
    pub(crate) fn of_directory(alloc: Global, path: &str, error: io::Error) -> DirectoryFault {
        let Ok(path) = String::from_str(alloc, path) else {
            return DirectoryFault::Memory;
        };
        match error.kind() {
            ErrorKind::NotFound => DirectoryFault::Missing(path),
            ErrorKind::NotADirectory => DirectoryFault::NoDirectory(path),
            ErrorKind::WouldBlock => DirectoryFault::InUse(path),
            ErrorKind::AlreadyExists => DirectoryFault::Twice(path),
            ErrorKind::OutOfMemory => DirectoryFault::Memory,
            _ => DirectoryFault::Refused { path, error },
        }
    }

    /// The fault for an error of locking the file at a path in a directory.
    pub(crate) fn of_lock(
        alloc: Global,
        directory: &str,
        path: &str,
        error: io::Error,
    ) -> DirectoryFault {
        match error.kind() {
            ErrorKind::WouldBlock => DirectoryFault::of_directory(alloc, directory, error),
            _ => DirectoryFault::of_files(alloc, path, error),
        }
    }

    /// The fault for an error of reading the files of a directory.
    pub(crate) fn of_files(alloc: Global, path: &str, error: io::Error) -> DirectoryFault {
        match String::from_str(alloc, path) {
            Ok(path) if error.kind() != ErrorKind::OutOfMemory => {
                DirectoryFault::Refused { path, error }
            }
            _ => DirectoryFault::Memory,
        }
    }
}

impl From<AllocError> for DirectoryFault {
    fn from(_error: AllocError) -> DirectoryFault {
        DirectoryFault::Memory
    }
}

impl<T: Drop> From<AllocFailed<T>> for DirectoryFault {
    fn from(_error: AllocFailed<T>) -> DirectoryFault {
        DirectoryFault::Memory
    }
}
