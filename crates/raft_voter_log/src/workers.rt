//! Opens of a run's files by any number of workers.

ghost use Rattle.raft_voter_log.specs.Workers.{AnyWorkersOpenAlike};

use raft_log_engine::{FileSystem, MemoryFileSystem};

/// Two opens of the same files that succeed find the same voters and list them alike, with any two numbers of workers.
/// The files are such as a run over a log leaves, without a CRC collision.
pub fn any_workers_open_alike()
    ensures { AnyWorkersOpenAlike ⟦<MemoryFileSystem as FileSystem>⟧.tells_space }
{}
