//! The files of a queue that no pipe has open.

use raft_log_active_file::File;
use std::collections::VecDeque;

/// The files of a queue as they were found while no pipe has it open, and how far the last one was read.
#[derive(Drop, Debug)]
pub struct FoundFiles {
    /// The files of the queue in the order of their numbers, without a gap; none if the queue has no file yet.
    pub files: VecDeque<File>,
    /// The offset in bytes at which the whole records of the last file end; `None` if it has no header.
    pub end: Option<usize>,
    /// The files that are kept for recycling, the oldest first.
    pub recycled: VecDeque<File>,
}
