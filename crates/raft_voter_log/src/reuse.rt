//! Files that are used again, and files that a crash leaves unchanged.

ghost use Rattle.raft_voter_log.specs.Reuse.{RotatedFilesOnlyLose, StandingFilesOnlyLose};

/// Suppose that no record begins after what was written to a running engine's active file. Then a crash that leaves the
/// file unchanged only loses writes to it.
pub fn standing_files_only_lose()
    ensures { StandingFilesOnlyLose }
{}

/// Right after a rotation, every crash only loses writes to the new active file, in either of two cases:
/// - The file was created.
/// - It was recycled, and began with the header of version 2 that new files get. Its old and new number differ in their
///   low 32 bits. Its old records may be any.
pub fn rotated_files_only_lose()
    ensures { RotatedFilesOnlyLose }
{}
