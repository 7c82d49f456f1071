//! A file from which bytes are read.

use raft_log_fs::Handle;

/// A file from which bytes are read.
#[derive(Clone, Copy, Debug, PartialEq, Eq)]
pub struct Source {
    /// The handle by which it is read.
    pub handle: Handle,
    /// Its size in bytes.
    pub size: usize,
}
