//! Which contents an open finds after a crash, in a log at rest, and if there is no log yet.

ghost use Rattle.raft_log_recovery_laws.specs.Bare.{BareDirectoriesOpen};
ghost use Rattle.raft_log_recovery_laws.specs.Directory.{CrashedDirectoriesOpen, RestingDirectoriesOpen};
ghost use Rattle.raft_log_recovery_laws.specs.Outcomes.{CrashedLogsOpenByCalls, RestingLogsOpenByCalls};
ghost use Rattle.raft_log_recovery_laws.specs.ByCalls.{ScansFindAllFiles, SyncedSparesCanBeUsed};
ghost use Rattle.raft_log_recovery_laws.specs.Running.{CrashedEnginesOpen};

use raft_log_fs::FileSystem;

/// If a log is at rest, a scan of the settings' directories finds all files of either queue from the last gap in their
/// numbers on.
pub fn scans_find_all_files()
    ensures { ScansFindAllFiles }
{}

/// After a log at rest was recovered and its files were synced, each file that is kept for recycling can be recycled,
/// whatever it holds. No two of them have the same path.
pub fn synced_spares_can_be_used<F: FileSystem>()
    ensures { SyncedSparesCanBeUsed F.disk F.tells_space }
{}

/// A log at rest is scanned, read by any number of workers, truncated, synced and opened: the engine has its contents.
/// If an open fails anywhere, the log is left with its contents. Nothing is pending in either case.
pub fn resting_logs_open_by_calls<F: FileSystem>()
    ensures { RestingLogsOpenByCalls F.disk F.tells_space }
{}

/// If a crash image of what an engine left is opened by these steps, the contents are those after a prefix of the
/// pending batches. This is so whether the open succeeds or fails. The prefix is the same for all settings that name
/// its directories, so for any number of workers. The image must have no CRC collision.
pub fn crashed_logs_open_by_calls<F: FileSystem>()
    ensures { CrashedLogsOpenByCalls F.disk F.tells_space }
{}

/// If a log at rest is opened with `open_directory` of `raft_log_open`, the engine has its contents, and nothing is
/// pending. If that fails, the log is left with its contents.
pub fn resting_directories_open<F: FileSystem>()
    ensures { RestingDirectoriesOpen F.disk F.tells_space }
{}

/// If a crash image of what an engine left is opened with `open_directory`, the contents are those after a prefix of
/// the pending batches. This is so whether the open succeeds or fails. The prefix is the same for all settings that
/// name the directories, so for any number of workers. The image must have no CRC collision.
pub fn crashed_directories_open<F: FileSystem>()
    ensures { CrashedDirectoriesOpen F.disk F.tells_space }
{}

/// If a crash image of a running engine is opened with `open_directory`, the contents are those after a prefix of the
/// pending batches. This is so whether the open succeeds or fails. The prefix is the same for all settings that name
/// the directories.
///
/// The image must have no CRC collision, which depends only on the engine's pipes and on the bytes on the disk. Each
/// record that is read of an active file must have been written there, or passed to an unsynced write at that offset.
pub fn crashed_engines_open<F: FileSystem>()
    ensures { CrashedEnginesOpen F.disk F.tells_space }
{}

/// If there is no log in the directories, and maybe none of these, opening them gives empty contents. If it fails,
/// there still is no log, or one with empty contents is left.
pub fn bare_directories_open<F: FileSystem>()
    ensures { BareDirectoriesOpen F.disk F.tells_space }
{}
