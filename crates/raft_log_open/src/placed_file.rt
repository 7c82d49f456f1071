//! The path of a log file, and the temporary path for its new bytes.

use raft_log_record_base::FileId;

/// A log file that was found, with its path and the temporary path for its new bytes.
#[derive(Drop, Debug)]
pub struct PlacedFile {
    /// Which file of the log it is.
    pub id: FileId,
    /// Whether it is the last one of its queue.
    pub is_last: bool,
    /// Its path.
    pub path: String,
    /// The path of the new file before it is renamed to `path`.
    pub temporary: String,
}
