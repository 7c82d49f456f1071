//! Why the program ends with status 1.
use raft_log_engine::Error as LogError;
use raft_log_fs_os::DirectoryFault;
use std::alloc::AllocError;
use std::io;
use thiserror::Error;

/// Why the program ends with status 1. A fault of the settings names their file.
#[derive(Debug, Drop, Error)]
pub enum Refusal {
    /// The file of settings could not be read.
    #[error("settings of {path:?}: {error}")]
    Unread {
        /// The file.
        path: String,
        /// The operating system's error.
        error: io::Error,
    },
    /// The settings in the file are wrong: it isn't TOML, a value is wrong, or they have a fault.
    #[error("settings of {path:?}: {error}")]
    Settings {
        /// The file.
        path: String,
        /// What is wrong with them.
        error: LogError,
    },
    /// A directory could not be created or opened.
    #[error("{0}")]
    Directory(DirectoryFault),
    /// The log failed, or reading the requests, or writing the replies.
    #[error("{0}")]
    Node(anyhow::Error),
    /// Out of memory.
    #[error("out of memory")]
    Memory,
}

impl From<DirectoryFault> for Refusal {
    fn from(fault: DirectoryFault) -> Refusal {
        Refusal::Directory(fault)
    }
}

impl From<anyhow::Error> for Refusal {
    fn from(error: anyhow::Error) -> Refusal {
        Refusal::Node(error)
    }
}

impl From<AllocError> for Refusal {
    fn from(_error: AllocError) -> Refusal {
        Refusal::Memory
    }
}
