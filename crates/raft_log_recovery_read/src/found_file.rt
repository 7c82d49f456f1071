//! What was found of a log file.

use raft_log_file_format::LogFileFormat;
use raft_log_fs::Handle;
use raft_log_record_base::{Error, FileId};

/// A log file that was found.
#[derive(Clone, Copy, Debug)]
pub struct ListedFile {
    /// Which file of the log it is.
    pub id: FileId,
    /// The handle by which it is open.
    pub handle: Handle,
    /// Whether it is the last one of its queue.
    pub is_last: bool,
}

/// What was found of a log file, from its start to its end, or to what is wrong with it. Its good records were handed
/// to a machine.
#[derive(Drop, Debug)]
pub struct FoundFile {
    /// The format in the file's header; if the header is missing or torn, that of a file without a header.
    pub format: LogFileFormat,
    /// The end of the last good record, in bytes from the start, or of the header if there is no good record; `None` if
    /// the header is missing or torn.
    pub end: Option<usize>,
    /// What is wrong after that end, or with the header: `Corruption` or `Codec`. `None` if the file has nothing or
    /// only padding after that end.
    pub fault: Option<Error>,
    /// The error of the first record that the machine declined; it was handed none after that one.
    pub declined: Option<Error>,
}
