//! What a recovery does with a file that it has read.

use raft_log_file_format::LogFileFormat;

/// What a recovery does with a file that it has read.
#[derive(Clone, Copy, Debug)]
pub struct FileEnding {
    /// The format in the file's header; if the header is missing or torn, that of a file without a header.
    pub format: LogFileFormat,
    /// The end of the file's last good record, in bytes from its start, or of its header if it has no good record;
    /// `None` if the header is missing or torn.
    pub end: Option<usize>,
    /// Whether the file is to be truncated there, because damage follows.
    pub is_damaged: bool,
}
