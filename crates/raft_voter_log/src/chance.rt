//! Which crashes leave no CRC collision, and which leave one, by the bytes in the active files.

ghost use Rattle.raft_voter_log.specs.Chance.{ForeignRecordsAreChance, LossesAreFound, LossesInRoundsAreFound, LossesLeaveNoChance, ZerosBeginNoRecord};

use raft_log_fs::FileSystem;

/// A crash of a running engine leaves no CRC collision if it leaves one of these of each active file:
/// - the header and a prefix of what was written after it, perhaps with a torn tail
/// - the header, the first records, each whole, and then bytes that don't begin with a record of that file
///
/// At each place where an old record of a recycled file begins, it has such bytes (`raft_log_dual_pipes`). This isn't
/// proved for places within an old record.
pub fn losses_leave_no_chance()
    ensures { LossesLeaveNoChance }
{}

/// Zeros don't begin with a record. Space that is allocated ahead of a write has only zeros.
pub fn zeros_begin_no_record()
    ensures { ZerosBeginNoRecord }
{}

/// After such a crash of a store between calls, an open finds the voters that its log stored. All settings that name
/// the directories find them. There is no premise on CRC collisions.
pub fn losses_are_found<F: FileSystem>()
    ensures { LossesAreFound F.disk F.tells_space }
{}

/// After such a crash during a round, an open finds voters that took a prefix of the requests served by then. They are
/// the same for all settings that name the directories.
pub fn losses_in_rounds_are_found<F: FileSystem>()
    ensures { LossesInRoundsAreFound F.disk F.tells_space }
{}

/// Suppose that a crash leaves another record of the file right after all that was written to an active file. No
/// unsynced write was asked to write it there. Then there is a CRC collision.
pub fn foreign_records_are_chance()
    ensures { ForeignRecordsAreChance }
{}
