//! Opening a log in place.

ghost use Rattle.raft_log_recovery_laws.specs.InPlace.{StandingDirectoriesOpen, StandingLogsOpenByCalls};
ghost use Rattle.raft_log_recovery_laws.specs.InPlace.{SyncedFilesHoldStill, UncutLogsStay, UnsyncedLogsStay};

use raft_log_fs::FileSystem;

/// Opening what a failed or closed engine left, without a crash and step by step, gives the contents after a prefix of
/// the pending batches. The prefix is the same for all settings that name the directories. Nothing is pending then. The
/// bytes that weren't synced are read as they are, and synced.
///
/// If opening a pipe fails after the syncs, the log is left with these contents. If an earlier step fails, the log is
/// left with them, or with the earlier contents and the pending batches. This requires that there is no CRC collision
/// in the active files.
pub fn standing_logs_open_by_calls<F: FileSystem>()
    ensures { StandingLogsOpenByCalls F.disk F.tells_space }
{}

/// The same for an open by `open_directory` of `raft_log_open`: it gives the contents after a prefix of the pending
/// batches. If it fails, the log is left with these contents, or with the earlier ones and the pending batches.
pub fn standing_directories_open<F: FileSystem>()
    ensures { StandingDirectoriesOpen F.disk F.tells_space }
{}

/// If an open fails in the scan or in reading the files, before anything was truncated, the log is left unchanged. Its
/// pending batches are still pending. This needs no premise on CRC collisions.
pub fn uncut_logs_stay()
    ensures { UncutLogsStay }
{}

/// Syncing a queue's active file, as it is, loses none of its records, including the pending ones, if it has no CRC
/// collision.
pub fn synced_files_hold_still()
    ensures { SyncedFilesHoldStill }
{}

/// If a sync of what an engine left fails before any truncation, the log is left with the batches that were pending.
/// This requires that there is no CRC collision in the active files.
pub fn unsynced_logs_stay()
    ensures { UnsyncedLogsStay }
{}
