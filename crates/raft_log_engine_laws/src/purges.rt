//! Laws of each part of a purge: what it leaves, whether it succeeds or fails.

ghost use Rattle.raft_log_engine_laws.specs.Quiet.{
  FailedSyncsLeaveLogs,
  RefusedRotationsKeepTheMap,
  RewriteSyncsKeepTheMap,
  RotationsKeepTheMap,
  SettledLogsAreHeld,
};
ghost use Rattle.raft_log_engine_laws.specs.Raising.{PurgesKeepTheMap, RefusedPurgesKeepTheMap};
ghost use Rattle.raft_log_engine_laws.specs.Rewriting.{
  RefusedCopiesKeepTheMap,
  RefusedMarksKeepTheMap,
  WrittenCopiesKeepTheMap,
  WrittenMarksKeepTheMap,
};

/// A settled log is held with nothing pending.
pub fn settled_logs_are_held()
    ensures { SettledLogsAreHeld }
{}

/// A sync of Rewrite keeps the map and the pending batches. A log without pending batches is settled after it.
pub fn rewrite_syncs_keep_the_map()
    ensures { RewriteSyncsKeepTheMap }
{}

/// A failed sync of either queue leaves the log on the disk, with its map and pending batches. A prefix of these may be
/// durable.
pub fn failed_syncs_leave_logs()
    ensures { FailedSyncsLeaveLogs }
{}

/// A rotation of Append puts all pending batches into the map, and a settled log stays settled. After a rotation of
/// Rewrite a log without pending batches is settled.
pub fn rotations_keep_the_map()
    ensures { RotationsKeepTheMap }
{}

/// After a failed rotation the log has the same map and pending batches. If the engine has failed, the log is on the
/// disk, and a prefix of the batches may be durable.
pub fn refused_rotations_keep_the_map()
    ensures { RefusedRotationsKeepTheMap }
{}

/// In a settled log, a purge of files that have nothing in use keeps the map. Append's files may leave the live range
/// only if no tombstone is owed.
pub fn purges_keep_the_map()
    ensures { PurgesKeepTheMap }
{}

/// In a settled log, a failed purge of such files keeps the map, whether they are deleted or not.
pub fn refused_purges_keep_the_map()
    ensures { RefusedPurgesKeepTheMap }
{}

/// After the owed tombstones were written to Rewrite, and the tables no longer owe them, the log has the same map.
pub fn written_marks_keep_the_map()
    ensures { WrittenMarksKeepTheMap }
{}

/// If Rewrite fails to write the owed tombstones, and the tables still owe them, the map is kept, whether they are
/// there or not.
pub fn refused_marks_keep_the_map()
    ensures { RefusedMarksKeepTheMap }
{}

/// After copies were written to Rewrite, and the tables moved the entries and values there, the log has the same map.
pub fn written_copies_keep_the_map()
    ensures { WrittenCopiesKeepTheMap }
{}

/// If Rewrite fails to write copies, and the tables don't change, the map is kept, whether they are there or not.
pub fn refused_copies_keep_the_map()
    ensures { RefusedCopiesKeepTheMap }
{}
