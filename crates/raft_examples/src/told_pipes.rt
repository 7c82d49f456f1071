//! A caller of `raft_log_file_listeners`: a purge that respects listeners.

ghost use Rattle.std.specs.Prelude.{◌≡◌, OnOk};
ghost use Rattle.raft_log_dual_pipes.specs.Pipes.{which_of};
ghost use Rattle.raft_examples.specs.ToldPipes.{PurgesFree, up_to};

use log::Log;
use raft_log_dual_pipes::PipeLog;
use raft_log_file_listeners::{EventListener, ToldPipes};
use raft_log_record_base::{FileId, FileSeq, LogQueue, Result};
use std::alloc::Global;

/// Removes the files of a queue below `end` from its live range, but none from the first on that the pipes or the
/// listener pin. Returns how many.
pub fn purge_free<P: PipeLog, E: EventListener, L: Log>(
    alloc: Global,
    rt: &L,
    told: &mut ToldPipes<P, E>,
    queue: LogQueue,
    end: FileSeq,
) -> Result<usize>
    ensures { OnOk result (PurgesFree (P.holds_back told.old.pipes queue) (E.holds_back told.old.listener queue)
        (which_of queue) end (P.shown told.old.pipes) (P.shown told.new.pipes)) }
{
    let held = told.first_file_not_ready_for_purge(queue);
    let end = up_to(held, end);
    let gone = told.purge_to(alloc, rt, FileId::new(queue, end))?;
    Ok(gone)
}

/// `end`, or the first pinned number if that is less.
fn up_to(held: Option<FileSeq>, end: FileSeq) -> FileSeq
    ensures { result ≡ up_to held end }
{
    match held {
        Some(first) => first.min(end),
        None => end,
    }
}
