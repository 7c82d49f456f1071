//! Laws on when an engine never fails with `Full`.
ghost use Rattle.raft_log_purge.specs.Laws.{
  BoundedBatchesAreNotFull,
  KnownLogsAreModest,
  KnownPairsGrow,
  MarksComeOfBatches,
  MarksTakeNoMore,
  ModestLogsArePurged,
  ModestLogsMakeRecords,
  OneValueIsModest,
};

/// A write of a batch never fails with `Full` if its record has fewer than 2^56 bytes by its bound.
pub fn bounded_batches_are_not_full()
    ensures { BoundedBatchesAreNotFull }
{}

/// If a log's groups are modest in size (`AreModest`), no record of what one group has is too long.
pub fn modest_logs_make_records()
    ensures { ModestLogsMakeRecords }
{}

/// A log's groups are modest if all their keys and values are known (`AreKnown`). By their bound, those of each group
/// must take less than 2^54 bytes.
pub fn known_logs_are_modest()
    ensures { KnownLogsAreModest }
{}

/// For an empty log, no keys need be known. A batch adds the keys and values that it puts, if its runs of entries are
/// short (`IsShortRun`).
pub fn known_pairs_grow()
    ensures { KnownPairsGrow }
{}

/// A log with one value and nothing else has modest groups, if the key and the value have less than 2^53 bytes.
pub fn one_value_is_modest()
    ensures { OneValueIsModest }
{}

/// The bound of the record of the owed tombstones is at most that of a record of the items that they came from.
pub fn marks_take_no_more()
    ensures { MarksTakeNoMore }
{}

/// The owed tombstones came from the batches that were written since none was owed. A write that fails adds none,
/// unless the engine fails, and a purge adds none.
pub fn marks_come_of_batches()
    ensures { MarksComeOfBatches }
{}

/// A purge of a log with modest groups never fails with `Full`. By its bound, the record of the items from which the
/// owed tombstones came must have fewer than 2^56 bytes.
pub fn modest_logs_are_purged()
    ensures { ModestLogsArePurged }
{}
