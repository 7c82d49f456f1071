//! How the files of a queue are recovered.

ghost use Rattle.std.specs.Prelude.{◌≡◌};
ghost use Rattle.raft_log_file_settings.specs.Settings.{settings_of};

use raft_log_file_settings::{Config, RecoveryMode};
use raft_log_record_base::LogQueue;

/// How the files of a queue are recovered.
#[derive(Clone, Copy, Debug, PartialEq, Eq)]
pub struct RecoveryConfig {
    /// Which queue.
    pub queue: LogQueue,
    /// What is done about damaged files.
    pub mode: RecoveryMode,
    /// How many workers read at once; with 0, no file is read.
    pub concurrency: usize,
    /// How many bytes of a file are read at a time.
    pub read_block_size: u64,
}

impl RecoveryConfig {
    /// How a queue's files are recovered by these settings, with so many workers.
    pub fn new(config: &Config, queue: LogQueue, concurrency: usize) -> RecoveryConfig
        ensures queue { result.queue ≡ queue }
        ensures mode { result.mode ≡ (settings_of config.now).recovery_mode }
        ensures concurrency { result.concurrency ≡ concurrency }
        ensures block { result.read_block_size ≡ (settings_of config.now).recovery_read_block_size }
    {
        RecoveryConfig {
            queue,
            mode: config.recovery_mode,
            concurrency,
            read_block_size: config.recovery_read_block_size.0,
        }
    }
}
