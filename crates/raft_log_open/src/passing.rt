//! A replay machine that takes every batch and keeps nothing of it.

ghost use Rattle.raft_log_open.specs.Passing.{DeclinesNone, ReadsAny};

use raft_log_record_base::{FileId, LogQueue, Result};
use raft_log_record_items::LogItem;
use raft_log_replay::ReplayMachine;

/// A replay machine for callers that need only what reading returns of a file: it takes every batch and keeps nothing.
#[derive(Drop)]
pub struct Passing;

impl ReplayMachine for Passing {
    ghost reads = { λ queue batches machine. ReadsAny queue batches };

    ghost declines = { λ queue batches error. DeclinesNone queue batches };

    fn replay(&mut self, _items: Vec<LogItem>, _file: FileId) -> Result<()> {
        Ok(())
    }

    fn merge(&mut self, _later: Passing, _queue: LogQueue) -> Result<()> {
        Ok(())
    }
}
