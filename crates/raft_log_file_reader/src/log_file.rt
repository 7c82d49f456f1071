//! A log file to read.

use raft_log_record_base::FileId;

/// A log file to read.
#[derive(Debug, Drop)]
pub struct LogFile {
    /// Which file it is.
    pub id: FileId,
    /// The file's path.
    pub path: String,
}
