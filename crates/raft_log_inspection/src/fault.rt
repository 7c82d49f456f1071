//! Why the files of a log aren't inspected.

use raft_log_record_base::Error;
use std::alloc::{AllocError, AllocFailed, Global};
use std::io::ErrorKind;
use thiserror::Error;

/// Why the files of a log aren't inspected.
#[derive(Debug, Drop, Error)]
pub enum InspectFault {
    /// A call on the file or the directory with this path failed. Or the file has a foreign record, the machine
    /// declined a record of it, or memory ran out while it was read.
    #[error("{path}: {error}")]
    Path {
        /// The path.
        path: String,
        /// Why: `Io`, `Corruption` for a foreign record, `Memory`, or the machine's error.
        error: Error,
    },
    /// A file's name, which the error has, begins with a number and isn't that number's; or memory ran out elsewhere.
    #[error("{0}")]
    Log(Error),
}

impl InspectFault {
    /// The failure of a call on a path; `Memory` if there was none for the path.
    pub fn at(alloc: Global, path: &str, error: Error) -> InspectFault {
        match String::from_str(alloc, path) {
            Ok(path) => InspectFault::Path { path, error },
            Err(_) => InspectFault::Log(Error::Memory),
        }
    }

    /// The failure of a file system's call on a path, as `at` returns it; for lack of memory always `Log`.
    pub(crate) fn refused(alloc: Global, path: &str, kind: ErrorKind) -> InspectFault {
        if kind == ErrorKind::OutOfMemory {
            return InspectFault::Log(Error::Memory);
        }
        InspectFault::at(alloc, path, Error::Io(kind))
    }
}

impl From<Error> for InspectFault {
    fn from(error: Error) -> InspectFault {
        InspectFault::Log(error)
    }
}

impl From<AllocError> for InspectFault {
    fn from(_error: AllocError) -> InspectFault {
        InspectFault::Log(Error::Memory)
    }
}

impl<T: Drop> From<AllocFailed<T>> for InspectFault {
    fn from(_error: AllocFailed<T>) -> InspectFault {
        InspectFault::Log(Error::Memory)
    }
}
