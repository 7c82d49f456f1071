//! Reads the segments of a queue with parallel workers.
ghost use Rattle.std.specs.Int.{div_ceil};
ghost use Rattle.std.specs.Prelude.{◌≡◌, ◌+◌, ◌*◌, ◌<◌, ◌≤◌, max, IfOk, IfErr};
ghost use Rattle.raft_log_replay.specs.Segments.{chunk_start, read_by, HasReadSegments, IsChunk, IsRefusedIn};

use crate::chunk::{merge_chunks, replay_chunk};
use crate::machine::{Factory, ReplayMachine};
use crate::source::ReplaySource;
use raft_log_record_base::Result;
use rayon::prelude::*;
use std::alloc::Global;
use std::marker::Send;
use std::thread::Threads;

/// The result of reading segments.
#[derive(Drop)]
pub struct ReadSegments<M, E> {
    /// The machine that has read them, in order.
    pub machine: M,
    /// The ending of each of them.
    pub endings: Vec<E>,
}

/// Reads the segments of a queue, cut into at most as many chunks as there are workers, each with its own machine. Then
/// merges the machines: the result has read all segments in order. Without a worker nothing is read.
///
/// Fails with the error of the first chunk that isn't read or merged: a segment can't be read, a machine declines its
/// batches, or memory ran out. No machine is returned then.
pub fn replay_segments<S: ReplaySource, M: ReplayMachine + Send, FA: Factory<M>>(
    rt: &(impl Threads + Sync),
    alloc: Global,
    source: &S,
    factory: &FA,
    workers: usize,
) -> Result<ReadSegments<M, S::Ending>>
    ensures ok { IfOk result (λ done. HasReadSegments (S.holds source.now)
        (M.reads (S.queue_of source.now)) 0 (read_by workers (S.count_of source.now)) done.machine
        done.endings.items) }
    ensures errors { IfErr result (IsRefusedIn (S.holds source.now) (S.begins source.now)
        (S.refuses source.now) (M.declines (S.queue_of source.now)) 0
        (read_by workers (S.count_of source.now))) }
{
    let machine = factory.new_target()?;
    let whole = ReadSegments {
        machine,
        endings: Vec::new(alloc),
    };
    if workers == 0 {
        return Ok(whole);
    }
    let size = chunk_size(source.segment_count(), workers);
    let parts = (0..chunk_count(source.segment_count(), size))
        .into_par_iter()
        .with_min_len(1)
        .map(
            |index: usize| -> Result<ReadSegments<M, S::Ending>>
                ensures { IsChunk (S.holds source.entry.now) (M.reads (S.queue_of source.entry.now))
                    (S.begins source.entry.now) (S.refuses source.entry.now)
                    (M.declines (S.queue_of source.entry.now))
                    (chunk_start size (S.count_of source.entry.now) index)
                    (chunk_start size (S.count_of source.entry.now) (index + 1)) result }
            { replay_chunk(alloc, source, factory, size, index) },
        )
        .collect::<Vec<_>>(rt, alloc)?;
    merge_chunks(source, whole, parts)
}

/// How many segments a worker reads, for these numbers of both: enough that there is a worker for each chunk, and at
/// least one.
pub fn chunk_size(segments: usize, workers: usize) -> usize
    requires { 0 < workers }
    ensures value { result ≡ max 1 (div_ceil segments workers) }
    ensures some { 0 < result }
    ensures enough { segments ≤ result * workers }
{
    segments.div_ceil(workers).max(1)
}

/// The number of chunks, if each has `size` segments.
pub(crate) fn chunk_count(segments: usize, size: usize) -> usize
    requires { 0 < size }
    ensures value { result ≡ div_ceil segments size }
    ensures enough { segments ≤ result * size }
{
    segments.div_ceil(size)
}
