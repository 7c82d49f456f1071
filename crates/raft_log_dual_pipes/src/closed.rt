//! The result of closing a log.

use raft_log_record_base::Result;

/// The result of closing a log: the file system in any case, and whether the log is durable.
#[derive(Drop)]
pub struct Closed<F> {
    /// The file system, whatever the result of the close.
    pub files: F,
    /// - `Ok`: everything that was written to the log is durable.
    /// - `Io`: truncating or syncing an active file failed. What was written to its queue since the last sync may not
    ///   be durable.
    /// - `Failed`: the log had failed before, and the close didn't touch it.
    pub result: Result<()>,
}
