//! A session, and why a text is none.
use raft_log_file_settings::Config;
use raft_log_fs_memory::Remainder;
use raft_log_judge::Batch;
use raft_log_world::Event;
use std::alloc::{AllocError, AllocFailed};
use thiserror::Error;

/// What happens to a log in a session.
pub type SessionEvent = Event<Batch, Remainder>;

/// A session: the settings of a log, and what happens to it.
#[derive(Drop)]
pub struct Session {
    /// The settings.
    pub config: Config,
    /// The events, in order.
    pub events: Vec<SessionEvent>,
}

/// Why a text is no session.
#[derive(Clone, Copy, Debug, PartialEq, Eq, Error)]
pub enum SessionFault {
    /// The line of this number, counted from 1, doesn't begin with the word of a command.
    #[error("line {0}: unknown command")]
    Unknown(usize),
    /// The line of this number, counted from 1, doesn't have the form of its command.
    #[error("line {0}: not of the form: {1}")]
    Unreadable(usize, &'static str),
    /// After the last `write`, lines fill another batch.
    #[error("the last batch is not written")]
    Unwritten,
    /// An allocation failed.
    #[error("out of memory")]
    Memory,
}

impl From<AllocError> for SessionFault {
    fn from(_refused: AllocError) -> SessionFault {
        SessionFault::Memory
    }
}

/// Why a line, or a part of it, couldn't be read.
#[derive(Clone, Copy, Debug, PartialEq, Eq, Error)]
pub enum Unread {
    /// It doesn't have its form.
    #[error("not of its form")]
    Form,
    /// An allocation failed.
    #[error("out of memory")]
    Memory,
}

impl From<AllocError> for Unread {
    fn from(_refused: AllocError) -> Unread {
        Unread::Memory
    }
}

impl<T: Drop> From<AllocFailed<T>> for Unread {
    fn from(_refused: AllocFailed<T>) -> Unread {
        Unread::Memory
    }
}
