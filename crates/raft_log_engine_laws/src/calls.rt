//! Laws of an engine's calls: what each exit leaves.

ghost use Rattle.raft_log_engine_laws.specs.Reading.{TablesTell};
ghost use Rattle.raft_log_engine_laws.specs.Laws.{
  BatchesAreWritten,
  ClosedEnginesAreDurable,
  ClosedEnginesAreLeft,
  EnginesLieOnDisks,
  FailuresLeaveLogs,
  RefusalsLeaveNoTrace,
  SyncsAreHeld,
};

/// After the pipes wrote a batch that may be written, and the tables applied it where they wrote it, it is the log's
/// last batch. A prefix of the batches may be durable.
pub fn batches_are_written()
    ensures { BatchesAreWritten }
{}

/// If the pipes fail to write a batch, the log is without it, and `Leaves` says which batches are durable, by the
/// error. If the engine has failed, its files can be opened, with the batch or without it.
pub fn refusals_leave_no_trace()
    ensures { RefusalsLeaveNoTrace }
{}

/// A sync of Append puts all pending batches into the map: they are durable.
pub fn syncs_are_held()
    ensures { SyncsAreHeld }
{}

/// A failed sync of Append leaves the log on the disk, with its map and pending batches. A prefix of these may be
/// durable.
pub fn failures_leave_logs()
    ensures { FailuresLeaveLogs }
{}

/// What an engine's tables show of first and last indexes, values and keys is what its map has after the pending
/// batches.
pub fn tables_tell()
    ensures { TablesTell }
{}

/// A close, even a failed one, leaves an engine's log on the disk, with its map and its pending batches. A prefix of
/// these may be durable.
pub fn closed_engines_are_left()
    ensures { ClosedEnginesAreLeft }
{}

/// A close that doesn't fail leaves an engine's log on the disk with all batches in the map, and none pending.
pub fn closed_engines_are_durable()
    ensures { ClosedEnginesAreDurable }
{}

/// The log of a running engine is on its disk, with its map and pending batches. So the laws on such logs say what a
/// crash leaves of it.
pub fn engines_lie_on_disks()
    ensures { EnginesLieOnDisks }
{}
