//! Reads the segments of a queue with scoped threads.
ghost use Rattle.std.specs.Prelude.{◌+◌, IfOk, IfErr};
ghost use Rattle.raft_log_replay.specs.Segments.{chunk_start, read_by, HasReadSegments, IsChunk, IsRefusedIn};

use crate::chunk::{merge_chunks, replay_chunk};
use crate::machine::{Factory, ReplayMachine};
use crate::segments::{ReadSegments, chunk_count, chunk_size, replay_segments};
use crate::source::ReplaySource;
use raft_log_record_base::Result;
use std::alloc::Global;
use std::marker::Send;
use std::thread::{Threads, map_indices};

/// Which threads read the chunks of a queue. The result is the same with both.
#[derive(Clone, Copy, Debug, PartialEq, Eq)]
pub enum ReplayThreads {
    /// The threads of `rayon`: as many as it makes for the processors, each for some of the chunks.
    Rayon,
    /// A scoped thread for each chunk, however many processors there are.
    Scoped,
}

/// Reads the segments of a queue as `replay_segments` does, with these threads.
///
/// Fails as `replay_segments` does.
pub fn replay_segments_by<S: ReplaySource, M: ReplayMachine + Send, FA: Factory<M>>(
    rt: &(impl Threads + Sync),
    alloc: Global,
    threads: ReplayThreads,
    source: &S,
    factory: &FA,
    workers: usize,
) -> Result<ReadSegments<M, S::Ending>>
    ensures ok { IfOk result (λ done. HasReadSegments (S.holds source.now)
        (M.reads (S.queue_of source.now)) 0 (read_by workers (S.count_of source.now)) done.machine
        done.endings.items) }
    ensures errors { IfErr result (IsRefusedIn (S.holds source.now) (S.begins source.now)
        (S.refuses source.now) (M.declines (S.queue_of source.now)) 0
        (read_by workers (S.count_of source.now))) }
{
    match threads {
        ReplayThreads::Rayon => replay_segments(rt, alloc, source, factory, workers),
        ReplayThreads::Scoped => replay_segments_scoped(rt, alloc, source, factory, workers),
    }
}

/// Reads the segments of a queue as `replay_segments` does, each chunk in a scoped thread of its own. There are as many
/// threads as chunks, at most as many as workers. If a thread can't be made, the thread that would have made it reads
/// its chunk.
///
/// Fails as `replay_segments` does.
pub fn replay_segments_scoped<S: ReplaySource, M: ReplayMachine + Send, FA: Factory<M>>(
    rt: &(impl Threads + Sync),
    alloc: Global,
    source: &S,
    factory: &FA,
    workers: usize,
) -> Result<ReadSegments<M, S::Ending>>
    ensures ok { IfOk result (λ done. HasReadSegments (S.holds source.now)
        (M.reads (S.queue_of source.now)) 0 (read_by workers (S.count_of source.now)) done.machine
        done.endings.items) }
    ensures errors { IfErr result (IsRefusedIn (S.holds source.now) (S.begins source.now)
        (S.refuses source.now) (M.declines (S.queue_of source.now)) 0
        (read_by workers (S.count_of source.now))) }
{
    let machine = factory.new_target()?;
    let whole = ReadSegments {
        machine,
        endings: Vec::new(alloc),
    };
    if workers == 0 {
        return Ok(whole);
    }
    let size = chunk_size(source.segment_count(), workers);
    let chunks = chunk_count(source.segment_count(), size);
    let parts = map_indices(
        rt,
        alloc,
        chunks,
        &|index: usize| -> Result<ReadSegments<M, S::Ending>>
            ensures { IsChunk (S.holds source.entry.now) (M.reads (S.queue_of source.entry.now))
                (S.begins source.entry.now) (S.refuses source.entry.now)
                (M.declines (S.queue_of source.entry.now))
                (chunk_start size (S.count_of source.entry.now) index)
                (chunk_start size (S.count_of source.entry.now) (index + 1)) result }
        { replay_chunk(alloc, source, factory, size, index) },
    )?;
    merge_chunks(source, whole, parts)
}
