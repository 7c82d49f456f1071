//! A log's pipes, with a listener.

ghost use Rattle.std.specs.Prelude.{◌≡◌, ◌++◌, ◌-◌};
ghost use Rattle.raft_log_record_base.specs.declared.pipe_log.LogQueue.TheVariants.{Append, Rewrite};
ghost use Rattle.raft_log_dual_pipes.specs.Telling.{Hears, begun, files_found};

use crate::{EventListener, lesser};
use log::Log;
use raft_log_dual_pipes::{Closed, PipeLog};
use raft_log_file_pipe::ReactiveBytes;
use raft_log_fs::Fault;
use raft_log_record_base::{FileBlockHandle, FileId, FileSeq, LogQueue, Result};
use std::alloc::Global;

/// A log's pipes, and a listener that is notified of what happens to their files. Several listeners act as one,
/// `Listeners`: in their order, and the hook last.
#[derive(Drop)]
pub struct ToldPipes<P, E> {
    pipes: P,
    listener: E,
}

impl<P: PipeLog, E: EventListener> ToldPipes<P, E> {
    /// Wraps these pipes. Notifies the listener of the files in both live ranges, Append's first, in the order of
    /// their numbers.
    pub fn new(pipes: P, listener: E) -> ToldPipes<P, E>
        ensures pipes { result.pipes ≡ pipes }
        ensures shown { ⟦<ToldPipes<P, E> as PipeLog>⟧.shown result ≡ P.shown pipes }
        ensures told { Hears E.hears
            (files_found Append (P.shown pipes) ++ files_found Rewrite (P.shown pipes)) listener result.listener }
    {
        let mut listener = listener;
        tell_files(&mut listener, &pipes, LogQueue::Append);
        tell_files(&mut listener, &pipes, LogQueue::Rewrite);
        ToldPipes { pipes, listener }
    }

    /// The pipes.
    pub fn pipes(&self) -> &P
        ensures { result.now ≡ self.now.pipes }
    {
        &self.pipes
    }

    /// The listener.
    pub fn listener(&self) -> &E
        ensures { result.now ≡ self.now.listener }
    {
        &self.listener
    }
}

/// Notifies a listener of all files of a queue, in their order.
fn tell_files<P: PipeLog, E: EventListener>(listener: &mut E, pipes: &P, queue: LogQueue)
    ensures { Hears E.hears (files_found queue (P.shown pipes.now)) listener.old listener.new }
{
    let (first, last) = pipes.file_span(queue);
    listener.post_new_log_file(FileId::new(queue, first));
    tell_new_files(listener, queue, first, last);
}

/// Notifies a listener of the files of a queue after `before`, up to the last one, in their order.
fn tell_new_files<E: EventListener>(
    listener: &mut E,
    queue: LogQueue,
    before: FileSeq,
    last: FileSeq,
)
    ensures { Hears E.hears (begun queue before (last - before)) listener.old listener.new }
{
    for seq in before..last {
        listener.post_new_log_file(FileId::new(queue, seq + 1));
    }
}

impl<P: PipeLog, E: EventListener> PipeLog for ToldPipes<P, E> {
    ghost use Rattle.raft_log_dual_pipes.specs.Telling.{BothHear};
    ghost use Rattle.raft_log_file_listeners.specs.Least.{BothHoldBack};

    type Files = P::Files;

    type Listener = (P::Listener, E);

    ghost shown = { λ told. P.shown told.pipes };

    ghost files = { λ told. P.files told.pipes };

    ghost disk_of = { λ files. P.disk_of files };

    ghost arms_files = { λ fault old new. P.arms_files fault old new };

    ghost holds_back = { λ told queue.
        BothHoldBack (P.holds_back told.pipes queue) (E.holds_back told.listener queue) };

    ghost listener = { λ told. (P.listener told.pipes, told.listener) };

    ghost hears = { BothHear P.hears E.hears };

    fn is_failed(&self) -> bool {
        self.pipes.is_failed()
    }

    fn file_system(&self) -> &P::Files {
        self.pipes.file_system()
    }

    fn has_stopped(&self) -> bool {
        self.pipes.has_stopped()
    }

    fn arm(&mut self, fault: &Fault) -> Result<()> {
        self.pipes.arm(fault)
    }

    fn file_span(&self, queue: LogQueue) -> (FileSeq, FileSeq) {
        self.pipes.file_span(queue)
    }

    fn file_at(&self, queue: LogQueue, num: u32, den: u32) -> FileSeq {
        self.pipes.file_at(queue, num, den)
    }

    fn total_size(&self, queue: LogQueue) -> usize {
        self.pipes.total_size(queue)
    }

    fn read_bytes(&self, alloc: Global, block: FileBlockHandle) -> Result<Vec<u8>> {
        self.pipes.read_bytes(alloc, block)
    }

    fn read_over(&self, alloc: Global, block: FileBlockHandle, bytes: &mut Vec<u8>) -> Result<()> {
        self.pipes.read_over(alloc, block, bytes)
    }

    /// Notifies the listener of each file that the queue rotated to, even if the append fails, and then of the
    /// record.
    fn append<L: Log, B: ReactiveBytes>(
        &mut self,
        alloc: Global,
        rt: &L,
        queue: LogQueue,
        bytes: &mut B,
    ) -> Result<FileBlockHandle> {
        let before = self.pipes.file_span(queue).1;
        let answer = self.pipes.append(alloc, rt, queue, bytes);
        for seq in before..self.pipes.file_span(queue).1 {
            self.listener.post_new_log_file(FileId::new(queue, seq + 1));
        }
        if let Ok(place) = &answer {
            self.listener.on_append_log_file(*place);
        }
        answer
    }

    fn sync<L: Log>(&mut self, rt: &L, queue: LogQueue) -> Result<()> {
        self.pipes.sync(rt, queue)
    }

    /// Notifies the listener of each file that the queue rotated to, even if the call fails.
    fn rotate<L: Log>(&mut self, alloc: Global, rt: &L, queue: LogQueue) -> Result<()> {
        let before = self.pipes.file_span(queue).1;
        let answer = self.pipes.rotate(alloc, rt, queue);
        for seq in before..self.pipes.file_span(queue).1 {
            self.listener.post_new_log_file(FileId::new(queue, seq + 1));
        }
        answer
    }

    /// If the call succeeds and files left the live range, notifies the listener of the last one.
    fn purge_to<L: Log>(&mut self, alloc: Global, rt: &L, file_id: FileId) -> Result<usize> {
        let answer = self.pipes.purge_to(alloc, rt, file_id);
        if let Ok(count) = &answer {
            if *count > 0 {
                let last = file_id.seq.saturating_sub(1);
                self.listener.post_purge(FileId::new(file_id.queue, last));
            }
        }
        answer
    }

    fn post_apply_memtables(&mut self, file_id: FileId) {
        self.pipes.post_apply_memtables(file_id);
        self.listener.post_apply_memtables(file_id);
    }

    /// The lesser of the numbers that the pipes and the listener return.
    fn first_file_not_ready_for_purge(&self, queue: LogQueue) -> Option<FileSeq> {
        lesser(
            self.pipes.first_file_not_ready_for_purge(queue),
            self.listener.first_file_not_ready_for_purge(queue),
        )
    }

    fn close<L: Log>(self, alloc: Global, rt: &L) -> Closed<P::Files> {
        let ToldPipes { pipes, .. } = self;
        pipes.close(alloc, rt)
    }

    ghost same = { λ told. P.same told.pipes };
}
