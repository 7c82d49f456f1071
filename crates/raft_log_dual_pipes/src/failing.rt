//! A pipe fails while an engine runs over both.

ghost use Rattle.raft_log_dual_pipes.specs.Failing.{FailedPipesLeaveLogs};

use crate::queues::LogQueues;

/// If a pipe fails in a sync, in a rotation or in a write to Append, the log is on the disk. After a failed write it
/// has the batch or not. After a rotation or a write, a prefix of the pending batches may be synced.
pub fn failed_pipes_leave_logs<G: LogQueues>()
    ensures { (log : G) → FailedPipesLeaveLogs (G.queues log) }
{}
