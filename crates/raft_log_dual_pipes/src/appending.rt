//! A record is appended to a queue, or that fails.

ghost use Rattle.raft_log_dual_pipes.specs.Steps.{AppendIsAStep, RefusedAppendHasFailed, RefusedAppendIsAStep, RefusedRotationHasFailed};

use crate::queues::LogQueues;

/// If a record is written to one queue, its numbered files get it in the file of its location, and both pipes still
/// run. The queue may have rotated before the write.
pub fn append_is_a_step<G: LogQueues>()
    ensures { (log : G) → AppendIsAStep (G.queues log) }
{}

/// A failed append that doesn't return `Failed` leaves the numbered files unchanged except for syncs and rotations, and
/// both pipes still run. If its bytes were truncated away, all that was written before is synced. After `Failed`, the
/// pipe has failed, and a recovery may read the record or not.
pub fn refused_append_is_a_step<G: LogQueues>()
    ensures { (log : G) → RefusedAppendIsAStep (G.queues log) }
{}

/// If an append fails with `Io`, `TryAgain` or `Failed`, a file call has failed: a failure was counted, or the file
/// system has stopped.
pub fn refused_append_has_failed<G: LogQueues>()
    ensures { (log : G) → RefusedAppendHasFailed (G.queues log) }
{}

/// If a rotation fails with `Failed`, a file call has failed. It never returns `Io` or `TryAgain`.
pub fn refused_rotation_has_failed<G: LogQueues>()
    ensures { (log : G) → RefusedRotationHasFailed (G.queues log) }
{}
