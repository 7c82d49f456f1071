//! Calls on one queue while the other's pipe runs, has failed, or isn't open. Each call leaves both queues in one of
//! these states again, and its law states the effect on the numbered files.

ghost use Rattle.raft_log_dual_pipes.specs.PerQueue.{AppendsBeside, FailsToAppendBeside, QuietCallsBeside};

use crate::queues::LogQueues;

/// If a record is written to one queue, the numbered files get it, in the file of its location; the other queue's state
/// is unchanged.
pub fn appends_beside<G: LogQueues>()
    ensures { (log : G) → AppendsBeside (G.queues log) }
{}

/// After a failed append that doesn't return `Failed`, the pipe still runs, and all before it is synced or unchanged.
/// After `Failed`, the pipe has failed, and the record may be there or not. The other queue's state is unchanged.
pub fn fails_to_append_beside<G: LogQueues>()
    ensures { (log : G) → FailsToAppendBeside (G.queues log) }
{}

/// Syncs, rotations and purges of one queue leave the other unchanged, whether they succeed or fail.
pub fn quiet_calls_beside<G: LogQueues>()
    ensures { (log : G) → QuietCallsBeside (G.queues log) }
{}
