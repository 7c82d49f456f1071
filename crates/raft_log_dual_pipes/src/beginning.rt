//! How a log begins.

ghost use Rattle.raft_log_dual_pipes.specs.Beginning.{BegunLogIsEmpty, NoFilesAreNothing};

use crate::queues::LogQueues;

/// If both queues have just begun and have no file 0, the log's numbered files are one empty file 1 of each queue.
pub fn begun_log_is_empty<G: LogQueues>()
    ensures { (log : G) → BegunLogIsEmpty (G.queues log) }
{}

/// If a disk has no file of either queue, a log on it is empty, and no batch is pending.
pub fn no_files_are_nothing<G: LogQueues>()
    ensures { (log : G) → NoFilesAreNothing (G.queues log) }
{}
