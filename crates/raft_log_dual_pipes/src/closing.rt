//! Closing the pipes of a log.

ghost use Rattle.raft_log_dual_pipes.specs.Closing.{ClosedLogIsALog, CloseIsAStep, NamesAreReserved, SettledLogIsALog};

use crate::queues::LogQueues;

/// Closing a pipe keeps its records, all of which may be synced, even if calls fail. The other queue's state is
/// unchanged.
pub fn close_is_a_step<G: LogQueues>()
    ensures { (log : G) → CloseIsAStep (G.queues log) }
{}

/// Giving reserved names to files kept for recycling removes nothing from the log, even if some calls fail. The files
/// must be below the live range.
pub fn names_are_reserved<G: LogQueues>()
    ensures { (log : G) → NamesAreReserved (G.queues log) }
{}

/// If both pipes are closed, even with calls that fail, the log is on the disk. What an engine's contracts stated of it
/// still holds, except that a prefix of the pending batches may be synced.
pub fn closed_log_is_a_log<G: LogQueues>()
    ensures { (log : G) → ClosedLogIsALog (G.queues log) }
{}

/// If both pipes are closed and both active files were truncated and synced, all that an engine wrote is durable.
pub fn settled_log_is_a_log<G: LogQueues>()
    ensures { (log : G) → SettledLogIsALog (G.queues log) }
{}
