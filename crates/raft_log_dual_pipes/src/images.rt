//! What a crash leaves of a log.

ghost use Rattle.raft_log_dual_pipes.specs.Crash.{HeldIsAllowed};

use crate::queues::LogQueues;

/// If the last file of each queue holds its records, the numbered files allow whatever a crash without a CRC collision
/// leaves. The pipes may run or have failed, or an earlier stop may have left the records. A recovery reads all synced
/// records from its start on, and a prefix of the others, the same one from any start.
pub fn numbered_files_allow_each_image<G: LogQueues>()
    ensures { (log : G) → HeldIsAllowed (G.queues log) }
{}
