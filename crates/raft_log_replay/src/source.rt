//! The source of a queue's batches: its segments, in order.
ghost use Rattle.std.specs.Prelude.{◌≡◌, ◌<◌, ℕ, List, IfOk, IfErr};
ghost use Rattle.raft_log_record_base.specs.declared.errors.Error.{Error};
ghost use Rattle.raft_log_record_base.specs.declared.pipe_log.LogQueue.{LogQueue};
ghost use Rattle.raft_log_replay.specs.Machines.{Batch};
ghost use Rattle.raft_log_replay.specs.Sources.{ReplaysSegment, SegmentRefused};

use crate::machine::ReplayMachine;
use raft_log_record_base::{LogQueue, Result};
use std::marker::{Send, Sync};

/// The segments of a queue, in order. They can be read any number of times and by several workers.
pub trait ReplaySource: Sync {
    /// What reading a segment returns: for example, where it is to be truncated.
    type Ending: Send + Drop;

    // The queue.
    ghost queue_of: { Self → LogQueue };

    // How many segments it has.
    ghost count_of: { Self → ℕ };

    // The segment with this number holds these batches, and reading it returns this ending.
    ghost holds: { Self → ℕ → List Batch → Self.Ending → Type 0 };

    // The segment with this number begins with these batches.
    ghost begins: { Self → ℕ → List Batch → Type 0 };

    // Why the segment with this number can't be read.
    ghost refuses: { Self → ℕ → Error → Type 0 };

    /// The queue of the segments.
    fn queue(&self) -> LogQueue
        ensures { result ≡ queue_of self.now };

    /// The number of segments.
    fn segment_count(&self) -> usize
        ensures { result ≡ count_of self.now };

    /// Reads a segment's batches into the machine, and returns the segment's ending. Fails if the segment can't be
    /// read, if the machine declines its batches, or with `Memory`.
    fn replay_segment<M: ReplayMachine>(
        &self,
        index: usize,
        machine: &mut M,
    ) -> Result<Self::Ending>
        requires { index < count_of self.now }
        ensures ok { IfOk result (λ ending.
            ReplaysSegment (holds self.now index) (M.reads (queue_of self.now)) machine.old machine.new ending) }
        ensures errors { IfErr result
            (SegmentRefused (refuses self.now index) (begins self.now index) (M.reads (queue_of self.now))
            (M.declines (queue_of self.now)) machine.old) };
}
