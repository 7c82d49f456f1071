//! Why a command fails.
use raft_log_engine::Error as LogError;
use raft_log_inspection::InspectFault;
use std::alloc::{AllocError, AllocFailed, Global};
use std::io;
use std::io::ErrorKind;
use thiserror::Error;

/// Why a command fails.
#[derive(Debug, Drop, Error)]
pub enum CommandFault {
    /// A call of the log failed that isn't about one path, or memory ran out.
    #[error("{0}")]
    Log(LogError),
    /// A call on the file or the directory with this path failed, or the file has a foreign record.
    #[error("{path}: {error}")]
    File {
        /// The path.
        path: String,
        /// Why the call failed.
        error: LogError,
    },
    /// Writing the output failed.
    #[error("writing the output failed: {0}")]
    Output(io::Error),
}

/// The result of a command that succeeded.
#[derive(Clone, Copy, Debug, PartialEq, Eq)]
pub enum Outcome {
    /// The task found no fault. `Fork` and `Unpad` look for none.
    Sound,
    /// The task found a hole, a gap or a damaged file, or `Stat` couldn't open an engine over its copy.
    Faulty,
}

impl CommandFault {
    /// The failure of a call on a path: `Log` if memory ran out, else `File`.
    pub(crate) fn at(alloc: Global, path: &str, error: LogError) -> CommandFault {
        if matches!(
            error,
            LogError::Memory | LogError::Io(ErrorKind::OutOfMemory)
        ) {
            return CommandFault::Log(LogError::Memory);
        }
        match String::from_str(alloc, path) {
            Ok(path) => CommandFault::File { path, error },
            Err(_) => CommandFault::Log(LogError::Memory),
        }
    }
}

impl From<LogError> for CommandFault {
    fn from(error: LogError) -> CommandFault {
        CommandFault::Log(error)
    }
}

impl From<InspectFault> for CommandFault {
    fn from(fault: InspectFault) -> CommandFault {
        match fault {
            InspectFault::Path { path, error } => CommandFault::File { path, error },
            InspectFault::Log(error) => CommandFault::Log(error),
        }
    }
}

impl From<AllocError> for CommandFault {
    fn from(_error: AllocError) -> CommandFault {
        CommandFault::Log(LogError::Memory)
    }
}

impl<T: Drop> From<AllocFailed<T>> for CommandFault {
    fn from(_error: AllocFailed<T>) -> CommandFault {
        CommandFault::Log(LogError::Memory)
    }
}

impl From<io::Error> for CommandFault {
    fn from(error: io::Error) -> CommandFault {
        CommandFault::Output(error)
    }
}
