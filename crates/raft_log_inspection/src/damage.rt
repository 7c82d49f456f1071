//! A damaged log file.

use raft_log_record_base::{Error, FileId};

/// A damaged log file.
#[derive(Debug, Drop)]
pub struct Damage {
    /// The file's queue and its number.
    pub id: FileId,
    /// The file's path.
    pub path: String,
    /// The end of its last whole record, in bytes from the start, or of its header; 0 if it has no header.
    pub offset: usize,
    /// What is wrong there: `Corruption` or `Codec`.
    pub cause: Error,
}
