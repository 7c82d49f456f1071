//! Why a task or a purge fails.
use crate::pipe::is_closed;
use raft_log_fs_os::DirectoryFault;
use raft_log_operator::CommandFault;
use std::alloc::AllocError;
use std::io;
use thiserror::Error;

/// Why a task or a purge fails.
#[derive(Debug, Drop, Error)]
pub enum Refusal {
    /// The directories weren't opened.
    #[error("{0}")]
    Directory(DirectoryFault),
    /// The task failed.
    #[error("{0}")]
    Task(CommandFault),
}

impl From<DirectoryFault> for Refusal {
    fn from(fault: DirectoryFault) -> Refusal {
        Refusal::Directory(fault)
    }
}

impl From<CommandFault> for Refusal {
    fn from(fault: CommandFault) -> Refusal {
        Refusal::Task(fault)
    }
}

impl From<AllocError> for Refusal {
    fn from(_error: AllocError) -> Refusal {
        Refusal::Directory(DirectoryFault::Memory)
    }
}

impl From<io::Error> for Refusal {
    fn from(error: io::Error) -> Refusal {
        Refusal::Task(CommandFault::Output(error))
    }
}

impl Refusal {
    /// Whether the task failed because the reader of standard output closed it.
    pub fn is_closed_pipe(&self) -> bool {
        match self {
            Refusal::Task(CommandFault::Output(error)) => is_closed(error),
            _ => false,
        }
    }
}
