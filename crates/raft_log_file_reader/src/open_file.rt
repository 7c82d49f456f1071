//! A log file that is open for reading.

use crate::source::Source;
use raft_log_file_format::LogFileFormat;
use raft_log_record_base::FileId;

/// A log file that is open for reading.
#[derive(Clone, Copy, Debug, PartialEq, Eq)]
pub struct OpenFile {
    /// Which file it is.
    pub id: FileId,
    /// From where the file's bytes are read.
    pub source: Source,
    /// The format that the file's header states.
    pub format: LogFileFormat,
}
