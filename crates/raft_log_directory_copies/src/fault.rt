//! Why files weren't copied.
ghost use Rattle.std.specs.Prelude.{◌≡◌};
ghost use Rattle.raft_log_directory_copies.specs.declared.fault.CopyFault.TheVariants.{Memory};

use std::alloc::{AllocError, AllocFailed, Global};
use std::io;
use std::io::ErrorKind;
use thiserror::Error;

/// Why files weren't copied.
#[derive(Debug, Drop, Error)]
pub enum CopyFault {
    /// The operating system failed a call on one of its paths, for example because nothing has this path.
    #[error("{path:?}: {error}")]
    System {
        /// The path of the call.
        path: String,
        /// The error that it returned.
        error: io::Error,
    },
    /// The file system failed a call on one of its paths, for example because nothing has this path. The path is empty
    /// if there was no memory for it.
    #[error("{path:?} of the file system: {kind}")]
    FileSystem {
        /// The path of the call.
        path: String,
        /// The error that it returned.
        kind: ErrorKind,
    },
    /// The directory that was made for the files already has a file.
    #[error("{path:?} of the file system: it has files")]
    Occupied {
        /// The path of the directory.
        path: String,
    },
    /// Out of memory.
    #[error("out of memory")]
    Memory,
}

impl CopyFault {
    /// The fault for the operating system's error on a path.
    pub(crate) fn of_system(alloc: Global, path: &str, error: io::Error) -> CopyFault {
        match String::from_str(alloc, path) {
            Ok(path) if error.kind() != ErrorKind::OutOfMemory => CopyFault::System { path, error },
            _ => CopyFault::Memory,
        }
    }

    /// The fault for a file system's error on a path: `Memory` if it is lack of memory, else `FileSystem`, with an
    /// empty path if there is no memory for the path.
    pub(crate) fn of_file_system(alloc: Global, path: &str, kind: ErrorKind) -> CopyFault
        ensures { result ≡ Memory → kind ≡ ErrorKind.OutOfMemory }
    {
        if kind == ErrorKind::OutOfMemory {
            return CopyFault::Memory;
        }
        match String::from_str(alloc, path) {
            Ok(path) => CopyFault::FileSystem { path, kind },
            Err(_) => CopyFault::FileSystem {
                path: String::new(alloc),
                kind,
            },
        }
    }

    /// The fault for a directory of a file system that has files.
    pub(crate) fn of_occupied(alloc: Global, path: &str) -> CopyFault {
        match String::from_str(alloc, path) {
            Ok(path) => CopyFault::Occupied { path },
            Err(_) => CopyFault::Memory,
        }
    }
}

impl From<AllocError> for CopyFault {
    ghost from_gives = { λ _ fault. fault ≡ Memory };

    fn from(_error: AllocError) -> CopyFault {
        CopyFault::Memory
    }
}

impl<T: Drop> From<AllocFailed<T>> for CopyFault {
    ghost from_gives = { λ _ fault. fault ≡ Memory };

    fn from(_error: AllocFailed<T>) -> CopyFault {
        CopyFault::Memory
    }
}
