//! What an open makes of a log.

ghost use Rattle.raft_log_recovery_laws.specs.Found.{NoFilesAreTheQueue, ReadFilesAreTheQueue};
ghost use Rattle.raft_log_recovery_laws.specs.Left.{CrashedLogsRest, RefusedOpensLeaveLogs};
ghost use Rattle.raft_log_recovery_laws.specs.Opened.{OpenedEnginesHold};
ghost use Rattle.raft_log_recovery_laws.specs.Recovered.{CrashedLogsOpen, ReadLogsAreHeld};

/// If the files of a queue are at rest, recovery reads from them the batches of the queue that continues there: one for
/// each record, in order, with the places of its entries. If a queue has no file, it reads none.
pub fn read_files_are_the_queue()
    ensures files { ReadFilesAreTheQueue }
    ensures none { NoFilesAreTheQueue }
{}

/// Suppose that a log with nothing pending was read again, and that an engine's pipes run over it. Its tables are
/// merged from all that was read. Then the engine has the contents of the log, and nothing is pending.
pub fn opened_engines_hold()
    ensures { OpenedEnginesHold }
{}

/// A crash image of what an engine left, by a close, a failure or in the middle of a call, is a log at rest. It has the
/// contents after a prefix of the pending batches. The image must have no CRC collision.
pub fn crashed_logs_rest()
    ensures { CrashedLogsRest }
{}

/// If opening the pipes of a log at rest fails, the log is left with its contents.
pub fn refused_opens_leave_logs()
    ensures { RefusedOpensLeaveLogs }
{}

/// Suppose that the pipes of a log at rest are opened over its files as they were read. Then an engine of what was read
/// has its contents, and nothing is pending.
pub fn read_logs_are_held()
    ensures { ReadLogsAreHeld }
{}

/// The same for a crash image of what an engine left: an engine of what was read has the contents after a prefix of the
/// pending batches. Nothing is pending. The image must have no CRC collision.
pub fn crashed_logs_open()
    ensures { CrashedLogsOpen }
{}
