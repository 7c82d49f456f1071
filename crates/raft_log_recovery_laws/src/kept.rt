//! What calls that don't change a log's files leave of it.

ghost use Rattle.raft_log_recovery_laws.specs.Keeping.{KeptLogsStay};

use raft_log_dual_pipes::queues::LogQueues;

/// If both queues' files are unchanged, and a file can be created wherever one could be, a log at rest stays at rest. A
/// log that is left stays left with the same contents and pending batches. Anything else on the disk may change.
pub fn kept_logs_stay<G: LogQueues>()
    ensures { (log : G) → KeptLogsStay (G.queues log) }
{}
