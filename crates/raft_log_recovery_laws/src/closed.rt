//! A log that was closed properly: an open finds its contents without a premise on CRC collisions.

ghost use Rattle.raft_log_recovery_laws.specs.Closed.{ClosedEnginesReopen, ClosedFilesMeetThePremise};
ghost use Rattle.raft_log_recovery_laws.specs.Closed.{RestingLogsAskNothing, SuccessfulClosesAreProper, UndisturbedClosesAreProper};

use raft_log_fs::FileSystem;

/// A close that succeeds is proper: both active files were truncated after their records and synced.
pub fn successful_closes_are_proper()
    ensures { SuccessfulClosesAreProper }
{}

/// A close of a running log is proper if no file call fails in it.
pub fn undisturbed_closes_are_proper()
    ensures { UndisturbedClosesAreProper }
{}

/// If a log is at rest, there is no CRC collision in its active files: neither as they are, for an open in place or a
/// fork, nor in any crash image. In each crash image the log is at rest with the same contents.
pub fn resting_logs_ask_nothing()
    ensures { RestingLogsAskNothing }
{}

/// After a proper close both active files have exactly their header and their queue's records, all synced. So the log
/// is at rest with all batches. There is no CRC collision in the files, as they are or after any crash.
pub fn closed_files_meet_the_premise()
    ensures { ClosedFilesMeetThePremise }
{}

/// An open after a proper close gives the contents after all batches. There may be a crash between the close and the
/// open. If the open fails, the log is left with these contents.
pub fn closed_engines_reopen<F: FileSystem>()
    ensures { ClosedEnginesReopen F.disk F.tells_space }
{}
