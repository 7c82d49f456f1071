//! Two opens of the same files.

ghost use Rattle.raft_voter_log.specs.StoreWorkers.{WorkersOpenAlike};

use raft_log_fs::FileSystem;

/// Two opens of the same files that succeed give the same voters with the same outlines, and both stores list them
/// alike. The opens may have any numbers of workers, and any settings that name the same directories. The files are
/// those of a store that was closed, failed or crashed, or of none, without a CRC collision.
pub fn workers_open_alike<F: FileSystem>()
    ensures { WorkersOpenAlike F.disk F.tells_space }
{}
