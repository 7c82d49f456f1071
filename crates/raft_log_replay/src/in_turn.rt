//! Reads the segments of a queue on the caller's thread.
ghost use Rattle.std.specs.Prelude.{IfOk, IfErr};
ghost use Rattle.raft_log_replay.specs.Segments.{read_by, HasReadSegments, IsRefusedIn};

use crate::chunk::replay_between;
use crate::machine::{Factory, ReplayMachine};
use crate::segments::ReadSegments;
use crate::source::ReplaySource;
use raft_log_record_base::Result;
use std::alloc::Global;

/// Reads the segments of a queue as `replay_segments` does, but one after the other into one machine, on the caller's
/// thread. Without a worker nothing is read.
///
/// Fails as `replay_segments` does.
pub fn replay_segments_in_turn<S: ReplaySource, M: ReplayMachine, FA: Factory<M>>(
    alloc: Global,
    source: &S,
    factory: &FA,
    workers: usize,
) -> Result<ReadSegments<M, S::Ending>>
    ensures ok { IfOk result (λ done. HasReadSegments (S.holds source.now)
        (M.reads (S.queue_of source.now)) 0 (read_by workers (S.count_of source.now)) done.machine
        done.endings.items) }
    ensures errors { IfErr result (IsRefusedIn (S.holds source.now) (S.begins source.now)
        (S.refuses source.now) (M.declines (S.queue_of source.now)) 0
        (read_by workers (S.count_of source.now))) }
{
    if workers == 0 {
        return replay_between(alloc, source, factory, 0, 0);
    }
    replay_between(alloc, source, factory, 0, source.segment_count())
}
