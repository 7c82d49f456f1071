//! Chunks of segments: each is read by one worker, and then the machines are merged.
ghost use Rattle.std.specs.Prelude.{◌≡◌, ◌+◌, ◌<◌, ◌≤◌, ℕ, IfOk, IfErr};
ghost use Rattle.raft_log_record_base.specs.declared.errors.Error.TheVariants.{Memory};
ghost use Rattle.raft_log_replay.specs.Segments.{chunk_start, Follow, HasReadSegments, IsChunk, IsRefusedIn};

use crate::machine::{Factory, ReplayMachine};
use crate::segments::ReadSegments;
use crate::source::ReplaySource;
use raft_log_record_base::Result;
use std::alloc::Global;

/// Reads the chunk with this number, each of `size` segments, with a machine of its own.
pub(crate) fn replay_chunk<S: ReplaySource, M: ReplayMachine, FA: Factory<M>>(
    alloc: Global,
    source: &S,
    factory: &FA,
    size: usize,
    index: usize,
) -> Result<ReadSegments<M, S::Ending>>
    ensures { IsChunk (S.holds source.now) (M.reads (S.queue_of source.now)) (S.begins source.now)
        (S.refuses source.now) (M.declines (S.queue_of source.now))
        (chunk_start size (S.count_of source.now) index)
        (chunk_start size (S.count_of source.now) (index + 1)) result }
{
    let count = source.segment_count();
    let first = index.saturating_mul(size).min(count);
    let last = first.saturating_add(size).min(count);
    replay_between(alloc, source, factory, first, last)
}

/// Reads the segments from one number up to another with a machine of its own.
pub(crate) fn replay_between<S: ReplaySource, M: ReplayMachine, FA: Factory<M>>(
    alloc: Global,
    source: &S,
    factory: &FA,
    first: usize,
    last: usize,
) -> Result<ReadSegments<M, S::Ending>>
    requires order { first ≤ last }
    requires inside { last ≤ S.count_of source.now }
    ensures { IsChunk (S.holds source.now) (M.reads (S.queue_of source.now)) (S.begins source.now)
        (S.refuses source.now) (M.declines (S.queue_of source.now)) first last result }
{
    let mut machine = factory.new_target()?;
    let mut endings = Vec::new(alloc);
    for index in first..last {
        endings.push(source.replay_segment(index, &mut machine)?)?;
    }
    Ok(ReadSegments { machine, endings })
}

/// Merges the machines that read chunks, in order, into the one that read all segments before them.
pub(crate) fn merge_chunks<S: ReplaySource, M: ReplayMachine>(
    source: &S,
    whole: ReadSegments<M, S::Ending>,
    parts: Vec<Result<ReadSegments<M, S::Ending>>>,
) -> Result<ReadSegments<M, S::Ending>>
    ensures { (at last : ℕ)
        → HasReadSegments (S.holds source.now) (M.reads (S.queue_of source.now)) 0 at whole.machine
        whole.endings.items
        → Follow (IsChunk (S.holds source.now) (M.reads (S.queue_of source.now)) (S.begins source.now)
        (S.refuses source.now) (M.declines (S.queue_of source.now))) at last parts.items
        → IsChunk (S.holds source.now) (M.reads (S.queue_of source.now)) (S.begins source.now)
        (S.refuses source.now) (M.declines (S.queue_of source.now)) 0 last result }
{
    let mut whole = whole;
    for part in parts {
        whole = merge_chunk(source, whole, part)?;
    }
    Ok(whole)
}

/// Merges the machine that read a chunk into the one that read all segments before it.
fn merge_chunk<S: ReplaySource, M: ReplayMachine>(
    source: &S,
    whole: ReadSegments<M, S::Ending>,
    part: Result<ReadSegments<M, S::Ending>>,
) -> Result<ReadSegments<M, S::Ending>>
    ensures ok { IfOk result (λ both. (at next : ℕ)
        → HasReadSegments (S.holds source.now) (M.reads (S.queue_of source.now)) 0 at whole.machine
        whole.endings.items
        → IsChunk (S.holds source.now) (M.reads (S.queue_of source.now)) (S.begins source.now)
        (S.refuses source.now) (M.declines (S.queue_of source.now)) at next part
        → HasReadSegments (S.holds source.now) (M.reads (S.queue_of source.now)) 0 next both.machine
        both.endings.items) }
    ensures errors { IfErr result (λ e. (at next last : ℕ) → at ≤ next → next ≤ last
        → HasReadSegments (S.holds source.now) (M.reads (S.queue_of source.now)) 0 at whole.machine
        whole.endings.items
        → IsChunk (S.holds source.now) (M.reads (S.queue_of source.now)) (S.begins source.now)
        (S.refuses source.now) (M.declines (S.queue_of source.now)) at next part
        → IsRefusedIn (S.holds source.now) (S.begins source.now) (S.refuses source.now)
        (M.declines (S.queue_of source.now)) 0 last e) }
{
    let mut whole = whole;
    let ReadSegments {
        machine,
        mut endings,
    } = part?;
    whole.machine.merge(machine, source.queue())?;
    whole.endings.append(&mut endings)?;
    Ok(whole)
}
