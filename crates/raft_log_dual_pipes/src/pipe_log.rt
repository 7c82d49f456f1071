//! A log's two queues of files, as an engine uses them.

ghost use Rattle.std.specs.Prelude.{◌≡◌, ◌↔◌, ◌++◌, ◌-◌, ◌≤◌, ◌<◌, ◌^◌, ℕ, Option, [], ◌∷◌, false, true, Err, IsTrue, IfErr, IfOk, OnErr, OnOk};
ghost use Rattle.raft_log_record_base.specs.declared.errors.Error.TheVariants as errors;
ghost use Rattle.raft_log_fs.specs.Causes.{IsLater};

use crate::closed::Closed;
use log::Log;
use raft_log_file_pipe::ReactiveBytes;
use raft_log_fs::Fault;
use raft_log_record_base::{FileBlockHandle, FileId, FileSeq, LogQueue, Result};
use std::alloc::Global;

/// A log's two queues of files. The clauses `ok` and `err` hold for any log over which the pipes run.
///
/// After an append, a sync, a rotation or a purge returned `Failed`, each later one on either queue returns it too, and
/// changes nothing.
pub trait PipeLog {
    ghost use Rattle.raft_log_dual_pipes.specs.State.{pipe_at};
    ghost use Rattle.raft_log_file_pipe.specs.Reading.{IsReadAt, IsReadRefused};
    ghost use Rattle.raft_log_file_pipe.specs.Purging.{IsInSpan};
    ghost use Rattle.raft_log_dual_pipes.specs.Pipes.{ArmsPipes, LogPipes, files_of, is_failed, which_of};
    ghost use Rattle.raft_log_fs.specs.Disk.{Disk};
    ghost use Rattle.raft_log_fs.specs.declared.handle.Fault.{Fault};
    ghost use Rattle.raft_log_record_base.specs.declared.pipe_log.LogQueue.{LogQueue};
    ghost use Rattle.raft_log_dual_pipes.specs.ClosingCalls.{ClosesAs, ClosesInOrder, ClosesLog, ClosesSettled};
    ghost use Rattle.raft_log_dual_pipes.specs.Numbers.{EndsNumbers, EndsNumbersAt, EndsNumbersBelow};
    ghost use Rattle.raft_log_dual_pipes.specs.LastFile.{IsNextIfFull, last_of};
    ghost use Rattle.raft_log_dual_pipes.specs.Telling.{Hears, Told, files_begun, files_purged};
    ghost use Rattle.raft_log_dual_pipes.specs.Telling.Told.{RecordApplied, RecordWritten};
    ghost use Rattle.raft_log_dual_pipes.specs.Calls.{AppendsTo, ArmsNoPipes, FailsToAppendTo, FailsToPurgeQueue, FailsToRotateQueue, FailsToSyncQueue, IsSpanOf, PurgesQueue, RotatesQueue, StaysFailed, SyncsQueue, TellsFailure, seq_at, size_at};
    ghost use Rattle.raft_log_dual_pipes.specs.PipeCalls.{PipeAppends, PipeFailsToAppend, PipeRotates};

    /// The file system of the files, which a close returns.
    type Files;

    /// The listener.
    type Listener;

    /// The pipes, and their disk.
    ghost shown: { Self → LogPipes };

    /// The file system.
    ghost files: { Self → Self.Files };

    /// The disk of the file system that a close returns.
    ghost disk_of: { Self.Files → Disk };

    /// The effect of arming a fault on that file system, apart from its disk.
    ghost arms_files: { Fault → Self.Files → Self.Files → Type 0 };

    /// What the listener pins of a queue: nothing, or the files from a number on.
    ghost holds_back: { Self → LogQueue → Option ℕ → Type 0 };

    /// The listener.
    ghost listener: { Self → Self.Listener };

    /// The effect of each event on the listener.
    ghost hears: { Told → Self.Listener → Self.Listener → Type 0 };

    /// Whether a pipe has failed: a call failed, and its effects couldn't be undone.
    fn is_failed(&self) -> bool
        ensures { result ≡ is_failed (shown self.now) };

    /// The file system.
    fn file_system(&self) -> &Self::Files
        ensures { result.now ≡ files self.now };

    /// Whether the file system has stopped.
    fn has_stopped(&self) -> bool
        ensures { result ≡ (shown self.now).disk.stopped };

    /// Arms a fault of the file system. It changes which later calls fail, and nothing else; if it makes a place
    /// unreadable, that is marked on the disk.
    ///
    /// Fails with `Io` if the file system had stopped, or if memory ran out.
    fn arm(&mut self, fault: &Fault) -> Result<()>
        ensures ok { OnOk result (ArmsPipes fault.now (shown self.old) (shown self.new)) }
        ensures armed { OnOk result (arms_files fault.now (files self.old) (files self.new)) }
        ensures err { OnErr result (shown self.new ≡ shown self.old) }
        ensures cause { IfErr result (ArmsNoPipes (shown self.old)) }
        ensures told { listener self.new ≡ listener self.old };

    /// The numbers of the first and the last file of a queue.
    fn file_span(&self, queue: LogQueue) -> (FileSeq, FileSeq)
        ensures first { result.0 ≡ (pipe_at (which_of queue) (files_of (shown self.now))).first_seq }
        ensures last { result.1 ≡ (pipe_at (which_of queue) (files_of (shown self.now))).active.seq }
        ensures span { IsSpanOf (which_of queue) (shown self.now) result.0 result.1 };

    /// The number of the file at a fraction of a queue's live range, counted from its first file and rounded down. For
    /// the whole range, the number after the last one.
    fn file_at(&self, queue: LogQueue, num: u32, den: u32) -> FileSeq
        requires fraction { num ≤ den }
        requires whole { 0 < den }
        ensures { result ≡ seq_at (which_of queue) (shown self.now) num den };

    /// The total size of a queue's live range in bytes, where each file counts as the target size; at most 2^64 - 1.
    fn total_size(&self, queue: LogQueue) -> usize
        ensures { result ≡ size_at (which_of queue) (shown self.now) };

    /// The bytes at a location; fewer if its file ends first. Fails with `Corruption` if its file isn't in the queue's
    /// live range, with `Io` if the file system fails the read, or with `Memory`.
    fn read_bytes(&self, alloc: Global, block: FileBlockHandle) -> Result<Vec<u8>>
        ensures ok { IfOk result (λ bytes. IsReadAt (pipe_at (which_of block.id.queue)
            (files_of (shown self.now))) block bytes.items (shown self.now).disk) }
        ensures err { IfErr result (IsReadRefused (pipe_at (which_of block.id.queue)
            (files_of (shown self.now))) block (shown self.now).disk) };

    /// Replaces the contents of `bytes` with the bytes at a location; fewer if its file ends first. Fails as
    /// `read_bytes` does, and then `bytes` may hold anything.
    fn read_over(&self, alloc: Global, block: FileBlockHandle, bytes: &mut Vec<u8>) -> Result<()>
        ensures ok { OnOk result (IsReadAt (pipe_at (which_of block.id.queue)
            (files_of (shown self.now))) block bytes.new.items (shown self.now).disk) }
        ensures err { IfErr result (IsReadRefused (pipe_at (which_of block.id.queue)
            (files_of (shown self.now))) block (shown self.now).disk) };

    /// Appends a record to a queue, and returns its location. The record is signed for the file that it goes into,
    /// which is the next one if the active file has reached the target size.
    ///
    /// - `Io`: the write failed and was truncated away, and all before it is durable.
    /// - `TryAgain`: the same for lack of space, and the queue rotated.
    /// - `Memory`, `NumberRange`: the queue couldn't rotate, and nothing is lost. `NumberRange` means that the active
    ///   file has the last number that a name can have.
    /// - `Failed`: the pipes have failed, now or earlier. If now, the record may be in the log.
    ///
    /// The listener hears of each file into which the queue rotated, even if the append fails. If it succeeds, the
    /// listener then hears of the record at its location.
    fn append<L: Log, B: ReactiveBytes>(
        &mut self,
        alloc: Global,
        rt: &L,
        queue: LogQueue,
        bytes: &mut B,
    ) -> Result<FileBlockHandle>
        ensures ok { IfOk result (λ block. AppendsTo (which_of queue) (B.signed bytes.old) block
            (shown self.old) (shown self.new)) }
        ensures place { IfOk result (λ block. block.offset < 2 ^ 63) }
        ensures err { IfErr result (λ error. FailsToAppendTo (which_of queue) (B.signed bytes.old) error
            (shown self.old) (shown self.new)) }
        ensures range { IfErr result (λ error. EndsNumbersAt (which_of queue) (B.signed bytes.old) error
            (shown self.old) (shown self.new)) }
        ensures goes_into { OnOk result (IsNextIfFull (which_of queue) (shown self.old)
            (last_of (which_of queue) (shown self.new))) }
        ensures calls { IfOk result (λ block. PipeAppends (which_of queue) (B.signed bytes.old) block
            (shown self.old) (shown self.new)) }
        ensures refusal { IfErr result (λ error. PipeFailsToAppend (which_of queue) (B.signed bytes.old) error
            (shown self.old) (shown self.new)) }
        ensures grows { OnErr result
            (last_of (which_of queue) (shown self.old) ≤ last_of (which_of queue) (shown self.new)) }
        ensures told { IfOk result (λ block. Hears hears
            (files_begun queue (shown self.old) (shown self.new) ++ RecordWritten block ∷ [])
            (listener self.old) (listener self.new)) }
        ensures told_less { OnErr result (Hears hears (files_begun queue (shown self.old) (shown self.new))
            (listener self.old) (listener self.new)) }
        ensures signed { B.signed bytes.new ≡ B.signed bytes.old }
        ensures said { B.said bytes.new ≡ B.said bytes.old }
        ensures failed { StaysFailed result (shown self.old) (shown self.new) }
        ensures fails { TellsFailure result (shown self.new) }
        ensures later { IsLater (shown self.old).disk (shown self.new).disk };

    /// Makes all records of a queue durable. Fails only with `Failed`.
    fn sync<L: Log>(&mut self, rt: &L, queue: LogQueue) -> Result<()>
        ensures ok { OnOk result (SyncsQueue (which_of queue) (shown self.old) (shown self.new)) }
        ensures err { OnErr result (FailsToSyncQueue (which_of queue) (shown self.old) (shown self.new)) }
        ensures error { IfErr result (λ error. error ≡ errors.Failed) }
        ensures told { listener self.new ≡ listener self.old }
        ensures failed { StaysFailed result (shown self.old) (shown self.new) }
        ensures fails { TellsFailure result (shown self.new) }
        ensures later { IsLater (shown self.old).disk (shown self.new).disk };

    /// Rotates a queue into its next file: the oldest of those that are kept for recycling, or a new one if there is
    /// none. All that was written to the queue before is durable.
    ///
    /// - `Memory`: nothing was done.
    /// - `NumberRange`: the active file has the last number that a name can have, and nothing was done.
    /// - `Failed`: a file call failed, now or earlier. If now, the queue may have rotated.
    fn rotate<L: Log>(&mut self, alloc: Global, rt: &L, queue: LogQueue) -> Result<()>
        ensures ok { OnOk result (RotatesQueue (which_of queue) (shown self.old) (shown self.new)) }
        ensures err { IfErr result (λ error. FailsToRotateQueue (which_of queue) error
            (shown self.old) (shown self.new)) }
        ensures range { IfErr result (λ error. EndsNumbers (which_of queue) error (shown self.old)) }
        ensures calls { OnOk result (PipeRotates (which_of queue) (shown self.old) (shown self.new)) }
        ensures told { Hears hears (files_begun queue (shown self.old) (shown self.new))
            (listener self.old) (listener self.new) }
        ensures failed { StaysFailed result (shown self.old) (shown self.new) }
        ensures fails { TellsFailure result (shown self.new) }
        ensures later { IsLater (shown self.old).disk (shown self.new).disk };

    /// Removes the files of a queue below this one from its live range, and returns how many. It keeps those of format
    /// version 2 for recycling, the lowest numbers first, as far as the capacity allows, and deletes the others.
    ///
    /// - `Other` (the number isn't in the live range), `Memory`: nothing was done.
    /// - `NumberRange`: the same, as a file has a number that no name has; no log has such a file.
    /// - `Failed`: the pipes had failed. Or a file wasn't deleted; all the files have left the live range anyway.
    fn purge_to<L: Log>(&mut self, alloc: Global, rt: &L, file_id: FileId) -> Result<usize>
        ensures ok { OnOk result (PurgesQueue (which_of file_id.queue) file_id.seq
            (shown self.old) (shown self.new)) }
        ensures count { IfOk result (λ count.
            IsInSpan file_id.seq (pipe_at (which_of file_id.queue) (files_of (shown self.old)))
            × (count ≡ file_id.seq
            - (pipe_at (which_of file_id.queue) (files_of (shown self.old))).first_seq)) }
        ensures err { IfErr result (λ error. FailsToPurgeQueue (which_of file_id.queue) file_id.seq error
            (shown self.old) (shown self.new)) }
        ensures range { IfErr result (λ error. EndsNumbersBelow (which_of file_id.queue) error
            (shown self.old)) }
        ensures told { Hears hears (files_purged file_id result) (listener self.old) (listener self.new) }
        ensures failed { StaysFailed result (shown self.old) (shown self.new) }
        ensures fails { TellsFailure result (shown self.new) }
        ensures later { IsLater (shown self.old).disk (shown self.new).disk };

    /// Reports to the listener that a record of this file was applied to the tables. Changes nothing else.
    fn post_apply_memtables(&mut self, file_id: FileId)
        ensures shown { shown self.new ≡ shown self.old }
        ensures files { files self.new ≡ files self.old }
        ensures told { Hears hears (RecordApplied file_id ∷ []) (listener self.old) (listener self.new) };

    /// The number of the first file of a queue that the listener pins, if there is one. It pins all later ones too.
    /// `purge_to` doesn't check this; its caller must.
    fn first_file_not_ready_for_purge(&self, queue: LogQueue) -> Option<FileSeq>
        ensures { holds_back self.now queue result };

    /// Closes both pipes, and returns the file system in any case. Truncates both active files after their records and
    /// syncs them, Append's first; then the files that are kept for recycling get reserved names.
    ///
    /// - `Ok`: all records of both queues are durable.
    /// - `Io`: a truncation or a sync failed. If both queues failed, the error is Append's. A failure in one queue
    ///   doesn't keep the other from being closed. What was durable still is.
    /// - `Failed`: the pipes had failed, and nothing was touched.
    ///
    /// A failure to give a name is only logged.
    fn close<L: Log>(self, alloc: Global, rt: &L) -> Closed<Self::Files>
        ensures held { is_failed (shown self) ≡ false → ClosesLog (shown self) (disk_of result.files) }
        ensures settled { OnOk result.result (ClosesSettled (shown self) (disk_of result.files)) }
        ensures calls { is_failed (shown self) ≡ false → ClosesInOrder (shown self) (disk_of result.files) }
        ensures value { is_failed (shown self) ≡ false
            → ClosesAs (shown self) result.result (disk_of result.files) }
        ensures failed { is_failed (shown self) ≡ true → result.files ≡ files self }
        ensures fails { IsTrue (is_failed (shown self)) ↔ (result.result ≡ Err errors.Failed) }
        ensures later { IsLater (shown self).disk (disk_of result.files) };

    ghost same: { (pipes : Self) → (shown pipes).disk ≡ disk_of (files pipes) };
}
