//! A file of the source that is to be copied.

use raft_log_fs::Handle;
use raft_log_record_base::FileSeq;
use raft_log_recovery_scan::FileKind;

/// A file of the source that is to be copied, open.
#[derive(Clone, Copy, Debug)]
pub struct SourceFile {
    /// The file's kind: Append's or Rewrite's.
    pub kind: FileKind,
    /// The file's number.
    pub seq: FileSeq,
    /// The handle by which the file is read.
    pub handle: Handle,
}
