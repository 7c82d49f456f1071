//! The live range of a queue begins later.

ghost use Rattle.raft_log_dual_pipes.specs.Syncing.{PurgeIsAStep, RefusedPurgeIsAStep};

use crate::queues::LogQueues;

/// If the files of one queue below a number are purged, its numbered files are raised to it, and both pipes still run.
pub fn purge_is_a_step<G: LogQueues>()
    ensures { (log : G) → PurgeIsAStep (G.queues log) }
{}

/// A purge that fails with `Memory`, `NumberRange` or `Other` (the number isn't in the live range) changes nothing. If
/// the pipe has failed, the numbered files are raised anyway, and a recovery reads what they allow.
pub fn refused_purge_is_a_step<G: LogQueues>()
    ensures { (log : G) → RefusedPurgeIsAStep (G.queues log) }
{}
