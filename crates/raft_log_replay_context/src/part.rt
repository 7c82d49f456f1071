//! Records of atomic groups that wait for the end of their group.
use raft_log_record_base::FileSeq;
use raft_log_record_items::LogItem;

/// A record of an atomic group: the items of its batch, and the file that it was read in.
#[derive(Drop)]
pub(crate) struct GroupPart {
    /// The items, the mark among them.
    pub(crate) items: Vec<LogItem>,
    /// The file.
    pub(crate) file: FileSeq,
}
