//! Why rounds are cut off and purges fail.

ghost use Rattle.raft_voter_log.specs.StoreCauses.{CutRoundsHaveFailed, FailedPurgesHaveFailed, PurgesTellCauses};

/// If the engine cuts a round off, a file call failed in it: the file system stopped, or a failure was counted. The
/// store's log must store voters before the round.
pub fn cut_rounds_have_failed()
    ensures { CutRoundsHaveFailed }
{}

/// If a purge leaves a store failed, a file call failed in it.
pub fn failed_purges_have_failed()
    ensures { FailedPurgesHaveFailed }
{}

/// Why a purge fails of a store whose log stores voters:
/// - a file call failed
/// - an entry couldn't be read
/// - a queue has its last file number
/// - the owed tombstones are too long for a record
/// - memory ran out
///
/// It never fails with an invalid argument, with a group whose contents are too long, or for a file that isn't of its
/// queue.
pub fn purges_tell_causes()
    ensures { PurgesTellCauses }
{}
