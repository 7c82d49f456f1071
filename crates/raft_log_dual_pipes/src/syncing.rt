//! A queue is synced, and rotates into the next file.

ghost use Rattle.raft_log_dual_pipes.specs.Syncing.{
  RefusedRotationIsAStep,
  RotationIsAStep,
  SyncIsAStep,
};

use crate::queues::LogQueues;

/// A sync of one queue is a sync of its numbered files, and both pipes still run.
pub fn sync_is_a_step<G: LogQueues>()
    ensures { (log : G) → SyncIsAStep (G.queues log) }
{}

/// A rotation of one queue syncs all that was written to it, and both pipes still run.
pub fn rotation_is_a_step<G: LogQueues>()
    ensures { (log : G) → RotationIsAStep (G.queues log) }
{}

/// A rotation that fails because memory or the file numbers ran out changes nothing. If the pipe has failed, a recovery
/// reads what the numbered files allow, unchanged or after the rotation.
pub fn refused_rotation_is_a_step<G: LogQueues>()
    ensures { (log : G) → RefusedRotationIsAStep (G.queues log) }
{}
