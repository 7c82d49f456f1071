//! What a fork leaves of its source, and which contents an open of it finds.

ghost use Rattle.raft_log_recovery_laws.specs.ForkLeaving.{ForksLeaveTheSource};
ghost use Rattle.raft_log_recovery_laws.specs.ForkLeft.{LeftLogsShowAlike};
ghost use Rattle.raft_log_recovery_laws.specs.ForkOpening.{ForksOpenAsTheirSource};
ghost use Rattle.raft_log_recovery_laws.specs.ForkResting.{ForkedLogsRest, TargetsAreClear};

use raft_log_fs::FileSystem;

/// Whether a fork succeeds or fails, its source is unchanged. A log at rest stays at rest. A log that is left stays
/// left with the same contents and pending batches. If no log had begun there, none has.
pub fn forks_leave_the_source()
    ensures { ForksLeaveTheSource }
{}

/// On a sound disk a target is clear (`IsClear`) if no directory in it has the name of a log file. If the target
/// doesn't exist, there is no file in it; if it exists, the fork checks for files.
pub fn targets_are_clear()
    ensures { TargetsAreClear }
{}

/// A fork of a log at rest into a clear target is at rest there, for settings that name only the target. It has the
/// same files, records and contents.
pub fn forked_logs_rest()
    ensures { ForkedLogsRest }
{}

/// If a log at rest was forked into a clear target, an open of the fork gives the same contents as an open of its
/// source. The source may be opened before the fork or after it. If an open fails, the log is left with these contents.
pub fn forks_open_as_their_source<F: FileSystem>()
    ensures { ForksOpenAsTheirSource F.disk F.tells_space }
{}

/// Suppose that an engine left its log, closed or failed, and that it is forked into a clear target. There was no crash
/// and no open in between. Then an open of the fork gives the same contents as an open of the source in place: those
/// after a prefix of the pending batches. The prefix is the same for all settings that name the source's directories. A
/// crash that kept all bytes would leave it too. This requires that there is no CRC collision in the active files.
pub fn left_logs_show_alike<F: FileSystem>()
    ensures { LeftLogsShowAlike F.disk F.tells_space }
{}
