//! A log is found again after a crash, and its pipes are opened.

ghost use Rattle.raft_log_dual_pipes.specs.Reopening.{CrashIsAStep, FoundLogIsALog, OpenIsAStep};

use crate::queues::LogQueues;

/// In any state of the queues, a crash without a CRC collision leaves the files of both at rest. Each queue keeps a
/// prefix of its unsynced records.
pub fn crash_is_a_step<G: LogQueues>()
    ensures { (log : G) → CrashIsAStep (G.queues log) }
{}

/// A pipe that is opened over what was found of its queue runs, and all that was read is synced. The other queue's
/// state is unchanged. A failed open leaves the disk unchanged, or all records that were read, synced.
pub fn open_is_a_step<G: LogQueues>()
    ensures { (log : G) → OpenIsAStep (G.queues log) }
{}

/// What holds for a log still holds after it is found again: its map is the one after a prefix of the pending batches.
pub fn found_log_is_a_log<G: LogQueues>()
    ensures { (log : G) → FoundLogIsALog (G.queues log) }
{}
