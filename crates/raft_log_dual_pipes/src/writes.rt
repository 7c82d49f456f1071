//! What an engine's contracts say of its log after a batch was written to Append: the steps combined with the contents
//! of its tables.

ghost use Rattle.raft_log_dual_pipes.specs.Writing.{WrittenIsPending};

use crate::queues::LogQueues;

/// A batch that is written is pending, after the others. A rotation may have synced a prefix of the others.
pub fn written_is_pending<G: LogQueues>()
    ensures { (log : G) → WrittenIsPending (G.queues log) }
{}
