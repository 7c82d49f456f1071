//! The effect of a call on one queue on the other.

ghost use Rattle.raft_log_dual_pipes.specs.Steps.{OtherQueueStays};

use crate::queues::LogQueues;

/// A call that changes only one queue's paths and their files leaves the other queue as it was. If its pipe ran, it
/// still runs with the same files. If its last file held its records, it still does.
pub fn other_queue_stays<G: LogQueues>()
    ensures append { (log : G) → OtherQueueStays (G.queues log).append (G.queues log).rewrite.own }
    ensures rewrite { (log : G) → OtherQueueStays (G.queues log).rewrite (G.queues log).append.own }
{}
