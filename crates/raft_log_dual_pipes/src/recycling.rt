//! What follows the records in an active file, also in a recycled one, and when no record of the file begins there.
//! Then the file has no CRC collision.
//!
//! Each public function is a law over the definitions of `specs/`: it does nothing, and its contract is what is proved.
ghost use Rattle.raft_log_dual_pipes.specs.LastFiles.{CallsLeaveRoom, StandingFilesMeetIt, UsedFilesMeetIt};
ghost use Rattle.raft_log_dual_pipes.specs.OldRecords.{AlikeFilesShareRecords, OldRecordsBeginNoRecord};

/// In a file of version 2, no record begins where an old one begins: one that was signed under the same header, for a
/// number with other low 32 bits. The old record's entries and the bytes after it don't matter.
pub fn old_records_begin_no_record()
    ensures { OldRecordsBeginNoRecord }
{}

/// If the numbers of two files have the same low 32 bits, each record of one is one of the other, under the same
/// header.
pub fn alike_files_share_records()
    ensures { AlikeFilesShareRecords }
{}

/// If a crash leaves a pipe's active file unchanged, and no record begins after those that the pipe wrote, the file has
/// no CRC collision. None begins if only preallocated zeros follow. A sync keeps that true, and right after it every
/// image has the file unchanged.
pub fn standing_files_meet_the_premise()
    ensures { StandingFilesMeetIt }
{}

/// Only preallocated zeros follow the records of the active file right after an open. The same holds right after a
/// rotation if no file is kept for recycling, and after a write or a sync that succeeds, if it held before.
pub fn calls_leave_room()
    ensures { CallsLeaveRoom }
{}

/// Right after a rotation into a recycled file, no record begins after its header. The file must have the header that
/// new files get, of version 2, and a number. The low 32 bits of this number must differ from those of the new one.
/// Right after any rotation, every image has the new active file unchanged.
pub fn used_files_meet_the_premise()
    ensures { UsedFilesMeetIt }
{}
