//! What holds for a log on a disk, through crashes and opens.

ghost use Rattle.raft_log_dual_pipes.specs.OnDisk.{LogsGoOnDisks, RestingLogsOpen};

use crate::queues::LogQueues;

/// A directory without log files holds the empty log. What a crash without a CRC collision leaves of a log is at rest,
/// with its map after a prefix of the pending batches. The log's pipes may be in any state.
pub fn logs_go_on_disks<G: LogQueues>()
    ensures { (log : G) → LogsGoOnDisks (G.queues log) }
{}

/// If both pipes of a log at rest are opened over what was found of it, the map is the same, and nothing is unsynced.
/// If either open fails, the log is still on the disk, with the same map.
pub fn resting_logs_open<G: LogQueues>()
    ensures { (log : G) → RestingLogsOpen (G.queues log) }
{}
