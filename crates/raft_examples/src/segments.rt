//! A caller of `raft_log_replay`: counts the records of a queue with a machine of its own.

ghost use Rattle.std.specs.Prelude.{IfOk};
ghost use Rattle.raft_log_replay.specs.Segments.{read_by};
ghost use Rattle.raft_examples.specs.Segments.{CountsRecords};

use raft_log_record_base::{FileId, LogQueue, Result};
use raft_log_record_items::LogItem;
use raft_log_replay::{Factory, ReplayMachine, ReplaySource, replay_segments};
use std::alloc::Global;
use std::thread::Threads;

/// How many records were read, at most 2^64 - 1.
#[derive(Clone, Copy)]
pub struct RecordCount {
    pub count: u64,
}

impl ReplayMachine for RecordCount {
    ghost use Rattle.raft_examples.specs.Segments.{IsCountOf};

    ghost reads = { λ queue batches machine. IsCountOf batches machine.count };

    ghost declines = { λ queue batches error. ⊥ };

    fn replay(&mut self, _items: Vec<LogItem>, _file: FileId) -> Result<()> {
        self.count = self.count.saturating_add(1);
        Ok(())
    }

    fn merge(&mut self, later: RecordCount, _queue: LogQueue) -> Result<()> {
        self.count = self.count.saturating_add(later.count);
        Ok(())
    }
}

/// Begins each count at zero.
#[derive(Clone, Copy)]
pub struct FromNothing;

impl Factory<RecordCount> for FromNothing {
    fn new_target(&self) -> Result<RecordCount> {
        Ok(RecordCount { count: 0 })
    }
}

/// How many records the segments of a queue have, read by this many workers; at most 2^64 - 1.
pub fn count_records<S: ReplaySource>(
    rt: &(impl Threads + Sync),
    alloc: Global,
    source: &S,
    workers: usize,
) -> Result<u64>
    ensures { IfOk result (CountsRecords (S.holds source.now) (read_by workers (S.count_of source.now))) }
{
    let read = replay_segments(rt, alloc, source, &FromNothing, workers)?;
    Ok(read.machine.count)
}
