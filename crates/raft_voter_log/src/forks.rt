//! Which voters are found in a copy of a log.

ghost use Rattle.raft_voter_log.specs.Forking.{ForkedVotersAreFound, ForksLeaveVoters, LeftVotersAreCopied, OwnDirectoriesGetNoCopy};

use raft_log_fs::FileSystem;

/// Suppose that a log at rest is copied into a clear target (`IsClear`), and that the copy's settings name only the
/// target. Then an open of the copy finds the source's voters. So does an open of the source, before the copy and after
/// it.
pub fn forked_voters_are_found<F: FileSystem>()
    ensures { ForkedVotersAreFound F.disk F.tells_space }
{}

/// If a store left its log, closed or failed, an open in place and an open of a copy find the same voters. The target
/// of the copy is clear (`IsClear`), and the copy's settings name only it. This requires that there was no crash since,
/// and that there is no CRC collision in the active files.
pub fn left_voters_are_copied<F: FileSystem>()
    ensures { LeftVotersAreCopied F.disk F.tells_space }
{}

/// Whether a copy succeeds or fails, it leaves its source's voters unchanged.
pub fn forks_leave_voters()
    ensures { ForksLeaveVoters }
{}

/// A copy into one of the log's own directories, or into a path in one of them, fails, and nothing changes. The
/// directory of spilled files is one of them.
pub fn own_directories_get_no_copy()
    ensures { OwnDirectoriesGetNoCopy }
{}
