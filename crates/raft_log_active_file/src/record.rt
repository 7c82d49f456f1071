//! The value of a record of the log.

use raft_lists::{Bytes, Items};
use raft_log_record_items::LogItem;

/// The value of a record of the log: its items, and the bytes of their entries, one after the other.
#[derive(Drop)]
pub struct LogRecord {
    /// The items, in their order.
    pub items: Items<LogItem>,
    /// The entries' bytes.
    pub entries: Bytes,
}
