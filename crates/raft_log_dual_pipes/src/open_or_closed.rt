//! The queues of a log, each in its own state.

ghost use Rattle.raft_log_dual_pipes.specs.OpenOrClosed.{LyingLogsAreLogs};

use crate::queues::LogQueues;

/// After a crash without a CRC collision, a recovery reads what the numbered files allow, so these give the log's
/// contents. This holds in any state of the two queues: each pipe may run, may have failed or been closed, or isn't
/// open.
pub fn lying_logs_are_logs<G: LogQueues>()
    ensures { (log : G) → LyingLogsAreLogs (G.queues log) }
{}
