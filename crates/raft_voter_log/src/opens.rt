//! Which voters an open finds.

ghost use Rattle.raft_voter_log.specs.Laws.{CrashedStoresAreFound, CrashedVotersAreFound, FirstOpensAreFresh, LeftVotersAreFound, RestingVotersAreFound};

use raft_log_fs::FileSystem;

/// Opening directories in which no log began gives fresh voters. If it fails, there still is no log, or one of fresh
/// voters.
pub fn first_opens_are_fresh<F: FileSystem>()
    ensures { FirstOpensAreFresh F.disk F.tells_space }
{}

/// Opening a log at rest gives the voters that its contents store. If it fails, a later open can find them.
pub fn resting_voters_are_found<F: FileSystem>()
    ensures { RestingVotersAreFound F.disk F.tells_space }
{}

/// Opening a crash image of a running store between calls gives the voters that it kept, for all settings that name its
/// directories. If it fails, a later open can find them. This requires that there is no CRC collision in the image.
pub fn crashed_stores_are_found<F: FileSystem>()
    ensures { CrashedStoresAreFound F.disk F.tells_space }
{}

/// Opening a crash image of a log that a store left, closed or failed, gives voters that are possible after the last
/// round. They are the same for all settings that name the directories, so for any number of workers. If it fails, a
/// later open can find them. This requires that there is no CRC collision in the image.
pub fn crashed_voters_are_found<F: FileSystem>()
    ensures { CrashedVotersAreFound F.disk F.tells_space }
{}

/// Opening a log that a store left, closed or failed, without a crash gives voters that are possible after the last
/// round. They are the same for all settings that name the directories, so for any number of workers. If it fails, a
/// later open can find possible voters. This requires that there is no CRC collision in the active files.
pub fn left_voters_are_found<F: FileSystem>()
    ensures { LeftVotersAreFound F.disk F.tells_space }
{}
