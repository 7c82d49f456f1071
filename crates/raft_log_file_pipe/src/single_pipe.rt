//! One queue of log files.

ghost use Rattle.std.specs.Prelude.{◌≡◌, ◌↔◌, ◌+◌, ◌-◌, ◌*◌, ◌/◌, ◌^◌, ◌<◌, ◌≤◌, length, min, suc, ℕ, true, false, Ok, Err, IfErr, IfOk, IsErr, IsTrue, OnErr, OnOk};
ghost use Rattle.raft_log_record_base.specs.declared.errors.Error.TheVariants as errors;
ghost use Rattle.raft_log_fs.specs.Causes.{IsLater};
ghost use Rattle.std.specs.declared.io.ErrorKind.TheVariants.{StorageFull};

use crate::appending::append;
use crate::closing::{finish, reserve_files};
use crate::found_files::FoundFiles;
use crate::new_files::NewFiles;
use crate::opening::open;
use crate::pipe_files::{PipeFiles, unlisted};
use crate::purging::purge;
use crate::reactive_bytes::ReactiveBytes;
use crate::rotating::rotate;
use crate::writing::sync;
use log::{Log, error};
use raft_log_active_file::PipeFormat;
use raft_log_file_writer::LogFileReader;
use raft_log_fs::{FileSystem, Receipt};
use raft_log_record_base::{Error, FileBlockHandle, FileSeq, LogQueue, Result};
use std::alloc::Global;

/// One queue of log files. Its calls borrow the file system.
///
/// If a call fails and its effects can't be undone, the pipe has failed: every later call that would change something
/// returns `Failed`, and changes nothing.
#[derive(Drop)]
pub struct SinglePipe<G> {
    layout: G,
    settings: PipeSettings,
    files: PipeFiles,
    failed: bool,
}

/// How a pipe writes its files.
#[derive(Drop, Debug)]
pub struct PipeSettings {
    /// The queue of the files.
    pub queue: LogQueue,
    /// How the pipe's files are begun.
    pub new_files: NewFiles,
    /// A purge keeps a file for recycling only if live and recycled files together are then at most this many.
    pub capacity: usize,
}

impl<G: PipeFormat> SinglePipe<G> {
    ghost use Rattle.raft_log_file_format.specs.Header.{header_bytes};
    ghost use Rattle.raft_log_file_pipe.specs.Appending.{AppendFails, AppendsAt, GoesElsewhere, GoesOnBy, SaysTryAgain, StaysFull};
    ghost use Rattle.raft_log_file_pipe.specs.Purging.{IsInSpan, IsRaised, PurgeLeaves, Purges, paths_going};
    ghost use Rattle.raft_log_file_pipe.specs.Placing.{IsNextPlace};
    ghost use Rattle.raft_log_fs.specs.Exits.{Syncs};
    ghost use Rattle.raft_log_file_pipe.specs.Calls.{DropsBy};
    ghost use Rattle.raft_log_file_pipe.specs.Doing.{AppendsBy, FailsToAppendBy, FailsToPurgeBy, FailsToSyncBy, FailsToTurnBy, TurnsPipeBy};
    ghost use Rattle.raft_log_file_pipe.specs.Reading.{IsReadAt, IsReadRefused};
    ghost use Rattle.raft_log_fs.specs.Touching.{HasFile};
    ghost use Rattle.raft_log_file_writer.specs.Reader.{AreBytesAt};
    ghost use Rattle.raft_log_file_pipe.specs.Exits.{FailsToSyncPipe, IsTurned, Rotates, RotationLeaves, SameLists, SyncsPipe};

    /// A pipe over these files, with these settings.
    pub fn new(layout: G, settings: PipeSettings, files: PipeFiles) -> SinglePipe<G>
        ensures layout { result.layout ≡ layout }
        ensures settings { result.settings ≡ settings }
        ensures files { result.files ≡ files }
        ensures failed { result.failed ≡ false }
    {
        SinglePipe {
            layout,
            settings,
            files,
            failed: false,
        }
    }

    /// Where the pipe's files are, and how they are written.
    pub fn layout(&self) -> &G
        ensures { result.now ≡ self.now.layout }
    {
        &self.layout
    }

    /// Whether the pipe has failed: a call failed, and its effects couldn't be undone.
    pub fn is_failed(&self) -> bool
        ensures { result ≡ self.now.failed }
    {
        self.failed
    }

    /// The numbers of the first and the last file.
    pub fn file_span(&self) -> (FileSeq, FileSeq)
        ensures first { result.0 ≡ self.now.files.first_seq }
        ensures last { result.1 ≡ self.now.files.active.seq }
    {
        (self.files.first_seq, self.files.active.seq)
    }

    /// How many files the live range has.
    fn count(&self) -> usize
        ensures { result ≡ suc (length self.now.files.earlier.items) }
    {
        self.files.earlier.len() + 1
    }

    /// The number of the file at a fraction of the live range, counted from its first file and rounded down. For the
    /// whole range, the number after the last one.
    pub fn file_at(&self, num: u32, den: u32) -> FileSeq
        requires fraction { num ≤ den }
        requires whole { 0 < den }
        ensures { result ≡ min (self.now.files.first_seq
            + suc (length self.now.files.earlier.items) * num / den) (2 ^ 64 - 1) }
    {
        let count = self.count() as u64;
        let (num, den) = (num as u64, den as u64);
        let at = count / den * num + count % den * num / den;
        self.files.first_seq.saturating_add(at)
    }

    /// The total size of the live range's files in bytes, where each counts as the target size; at most 2^64 - 1.
    pub fn total_size(&self) -> usize
        ensures { result ≡ min (suc (length self.now.files.earlier.items)
            * self.now.settings.new_files.target_size) (2 ^ 64 - 1) }
    {
        self.count()
            .saturating_mul(self.settings.new_files.target_size)
    }

    /// Appends a record, and returns its location. Rotates first if the active file has reached the target size.
    ///
    /// - `Io`: the write failed; its bytes were truncated away, and everything before them is durable. The kind is
    ///   `StorageFull` only if the file system reports no free space in any directory.
    /// - `TryAgain`: the same for lack of space, and the pipe rotated after it. The caller may append the record again.
    /// - `Memory`, `NumberRange`: the pipe couldn't rotate. The record isn't in the log, and no other one is lost.
    /// - `Failed`: the pipe has failed, now or before. The record may be on the disk.
    ///
    /// The pipe may also have rotated before a write that failed.
    pub fn append<F: FileSystem, L: Log, B: ReactiveBytes>(
        &mut self,
        alloc: Global,
        rt: &L,
        file_system: &mut F,
        bytes: &mut B,
    ) -> Result<FileBlockHandle>
        ensures ok { IfOk result (λ block. AppendsAt (G.format self.old.layout) (G.own self.old.layout)
            (G.file_paths self.old.layout) self.old.settings.new_files self.old.settings.queue
            (B.signed bytes.old) self.old.files self.new.files block
            (F.disk file_system.old) (F.disk file_system.new)) }
        ensures place { IfOk result (λ block. block.offset < 2 ^ 63) }
        ensures placed { self.old.settings.new_files.target_size ≤ self.old.files.writer.written
            → OnOk result (IsNextPlace (F.tells_space file_system.old) (F.disk file_system.old)
            self.old.settings.new_files.target_size (G.file_paths self.old.layout).directories
            self.old.files self.new.files.active.path_id) }
        ensures err { self.old.failed ≡ false → IfErr result (λ error.
            AppendFails (G.format self.old.layout) (G.own self.old.layout) (G.file_paths self.old.layout)
            self.old.settings.new_files self.old.settings.queue (B.signed bytes.old)
            self.old.files self.new.files error (F.disk file_system.old) (F.disk file_system.new)) }
        ensures elsewhere { IfErr result (λ error. SaysTryAgain error → GoesElsewhere F.disk F.tells_space
            (G.format self.old.layout) (G.own self.old.layout) (G.file_paths self.old.layout)
            self.old.settings.new_files self.old.settings.queue (B.signed bytes.old)
            self.old.files self.new.files file_system.old file_system.new) }
        ensures full { IfErr result (λ error. error ≡ errors.Io StorageFull → StaysFull F.disk F.tells_space
            (G.format self.old.layout) (G.own self.old.layout) (G.file_paths self.old.layout)
            self.old.settings.new_files self.old.settings.queue (B.signed bytes.old)
            self.old.files self.new.files file_system.old file_system.new) }
        ensures near { OnErr result (GoesOnBy 2 self.old.files self.new.files) }
        ensures signed { B.signed bytes.new ≡ B.signed bytes.old }
        ensures said { B.said bytes.new ≡ B.said bytes.old }
        ensures calls { IfOk result (λ block. AppendsBy (G.file_paths self.old.layout)
            self.old.settings.new_files self.old.settings.queue (B.signed bytes.old) self.old.files
            self.new.files block (F.disk file_system.old) (F.disk file_system.new)) }
        ensures refusal { self.old.failed ≡ false → IfErr result (λ error. FailsToAppendBy
            (G.file_paths self.old.layout) self.old.settings.new_files self.old.settings.queue
            (B.signed bytes.old) self.old.files self.new.files error
            (F.disk file_system.old) (F.disk file_system.new)) }
        ensures failed { self.old.failed ≡ true → (result ≡ Err errors.Failed) × (self.new ≡ self.old)
            × (F.disk file_system.new ≡ F.disk file_system.old) }
        ensures fails { IsTrue self.new.failed ↔ (result ≡ Err errors.Failed) }
        ensures first { self.new.files.first_seq ≡ self.old.files.first_seq }
        ensures same { (self.new.layout ≡ self.old.layout) × (self.new.settings ≡ self.old.settings) }
        ensures later { IsLater (F.disk file_system.old) (F.disk file_system.new) }
    {
        if self.failed {
            return Err(Error::Failed);
        }
        let answer = append(
            alloc,
            &self.layout,
            rt,
            file_system,
            &mut self.files,
            &self.settings.new_files,
            self.settings.queue,
            bytes,
        );
        self.failed = matches!(answer, Err(Error::Failed));
        answer
    }

    /// Makes all records durable. If it fails, returns `Failed`, and the pipe has failed.
    pub fn sync<F: FileSystem, L: Log>(&mut self, rt: &L, file_system: &mut F) -> Result<()>
        ensures ok { OnOk result (SyncsPipe (G.format self.old.layout) (G.own self.old.layout)
            (G.file_paths self.old.layout) self.old.files (F.disk file_system.old) (F.disk file_system.new)) }
        ensures err { self.old.failed ≡ false → OnErr result (FailsToSyncPipe (G.format self.old.layout)
            (G.own self.old.layout) (G.file_paths self.old.layout) self.old.files
            (F.disk file_system.old) (F.disk file_system.new)) }
        ensures error { IfErr result (λ error. error ≡ errors.Failed) }
        ensures calls { OnOk result (Syncs self.old.files.writer.handle
            (F.disk file_system.old) (F.disk file_system.new)) }
        ensures refusal { self.old.failed ≡ false → OnErr result (FailsToSyncBy
            self.old.files.writer.handle (F.disk file_system.old) (F.disk file_system.new)) }
        ensures failed { self.old.failed ≡ true → (result ≡ Err errors.Failed) × (self.new ≡ self.old)
            × (F.disk file_system.new ≡ F.disk file_system.old) }
        ensures fails { IsTrue self.new.failed ↔ IsErr result }
        ensures same { (self.new.layout ≡ self.old.layout) × (self.new.settings ≡ self.old.settings)
            × (self.new.files ≡ self.old.files) }
        ensures later { IsLater (F.disk file_system.old) (F.disk file_system.new) }
    {
        if self.failed {
            return Err(Error::Failed);
        }
        if let Err(kind) = sync(&self.layout, file_system, &self.files) {
            error!(rt; "log file {} wasn't synced: {kind}", self.files.active.seq);
            self.failed = true;
            return Err(Error::Failed);
        }
        Ok(())
    }

    /// Rotates into the oldest file kept for recycling, or into a new one if there is none.
    ///
    /// - `Memory`, or `NumberRange` if the next number has more than sixteen digits: nothing was done.
    /// - `Failed`: a file call failed, and the pipe has failed; or it had failed before.
    pub fn rotate<F: FileSystem, L: Log>(
        &mut self,
        alloc: Global,
        rt: &L,
        file_system: &mut F,
    ) -> Result<()>
        ensures ok { OnOk result (Rotates (G.format self.old.layout) (G.own self.old.layout)
            (G.file_paths self.old.layout) (header_bytes self.old.settings.new_files.format)
            self.old.files self.new.files (F.disk file_system.old) (F.disk file_system.new)) }
        ensures turned { OnOk result
            (IsTurned self.old.settings.new_files.format self.old.files self.new.files) }
        ensures placed { OnOk result (IsNextPlace (F.tells_space file_system.old) (F.disk file_system.old)
            self.old.settings.new_files.target_size (G.file_paths self.old.layout).directories
            self.old.files self.new.files.active.path_id) }
        ensures err { self.old.failed ≡ false → IfErr result (λ error.
            RotationLeaves (G.format self.old.layout) (G.own self.old.layout) (G.file_paths self.old.layout)
            (header_bytes self.old.settings.new_files.format) self.old.files self.new.files error
            (F.disk file_system.old) (F.disk file_system.new)) }
        ensures calls { OnOk result (TurnsPipeBy (G.file_paths self.old.layout)
            self.old.settings.new_files.format self.old.files self.new.files
            (F.disk file_system.old) (F.disk file_system.new)) }
        ensures refusal { self.old.failed ≡ false → IfErr result (λ error. FailsToTurnBy
            (G.file_paths self.old.layout) self.old.settings.new_files.format self.old.files self.new.files
            error (F.disk file_system.old) (F.disk file_system.new)) }
        ensures failed { self.old.failed ≡ true → (result ≡ Err errors.Failed) × (self.new ≡ self.old)
            × (F.disk file_system.new ≡ F.disk file_system.old) }
        ensures stays { OnErr result (SameLists self.old.files self.new.files) }
        ensures fails { IsTrue self.new.failed ↔ (result ≡ Err errors.Failed) }
        ensures first { self.new.files.first_seq ≡ self.old.files.first_seq }
        ensures same { (self.new.layout ≡ self.old.layout) × (self.new.settings ≡ self.old.settings) }
        ensures later { IsLater (F.disk file_system.old) (F.disk file_system.new) }
    {
        if self.failed {
            return Err(Error::Failed);
        }
        let answer = rotate(
            alloc,
            &self.layout,
            rt,
            file_system,
            &mut self.files,
            &self.settings.new_files,
        );
        self.failed = matches!(answer, Err(Error::Failed));
        answer
    }

    /// Removes the files below a number from the live range, and returns how many. From the oldest on, those with
    /// signed records are kept for recycling, until live and recycled files reach the capacity. Deletes the others.
    ///
    /// - `Other`: the number isn't in the live range, and nothing was done.
    /// - `Memory`, or `NumberRange` if no name has the number of one of the files: nothing was done.
    /// - `Failed`: a file wasn't deleted, and the pipe has failed; or it had failed before. In the first case the files
    ///   have left the live range.
    pub fn purge_to<F: FileSystem, L: Log>(
        &mut self,
        alloc: Global,
        rt: &L,
        file_system: &mut F,
        seq: FileSeq,
    ) -> Result<usize>
        ensures ok { OnOk result (Purges (G.format self.old.layout) (G.own self.old.layout)
            (G.file_paths self.old.layout) self.old.settings.capacity seq self.old.files self.new.files
            (F.disk file_system.old) (F.disk file_system.new)) }
        ensures raised { OnOk result (IsRaised self.old.settings.capacity seq self.old.files self.new.files) }
        ensures count { IfOk result (λ count.
            IsInSpan seq self.old.files × (count ≡ seq - self.old.files.first_seq)) }
        ensures err { self.old.failed ≡ false → IfErr result (λ error.
            PurgeLeaves (G.format self.old.layout) (G.own self.old.layout) (G.file_paths self.old.layout)
            self.old.settings.capacity seq self.old.files self.new.files error
            (F.disk file_system.old) (F.disk file_system.new)) }
        ensures calls { OnOk result (DropsBy (paths_going (G.file_paths self.old.layout)
            self.old.settings.capacity seq self.old.files) (F.disk file_system.old) (F.disk file_system.new)) }
        ensures refusal { self.old.failed ≡ false → IfErr result (λ error. FailsToPurgeBy
            (G.file_paths self.old.layout) self.old.settings.capacity seq self.old.files error
            (F.disk file_system.old) (F.disk file_system.new)) }
        ensures failed { self.old.failed ≡ true → (result ≡ Err errors.Failed) × (self.new ≡ self.old)
            × (F.disk file_system.new ≡ F.disk file_system.old) }
        ensures fails { IsTrue self.new.failed ↔ (result ≡ Err errors.Failed) }
        ensures same { (self.new.layout ≡ self.old.layout) × (self.new.settings ≡ self.old.settings) }
        ensures later { IsLater (F.disk file_system.old) (F.disk file_system.new) }
    {
        if self.failed {
            return Err(Error::Failed);
        }
        let answer = purge(
            alloc,
            &self.layout,
            rt,
            file_system,
            &mut self.files,
            self.settings.capacity,
            seq,
        );
        self.failed = matches!(answer, Err(Error::Failed));
        answer
    }

    /// The bytes at a location; fewer if the file ends first. Fails with `Corruption` if its file isn't in the live
    /// range, with `Io` if the read fails, or with `Memory`.
    pub fn read_bytes<F: FileSystem>(
        &self,
        alloc: Global,
        file_system: &F,
        block: FileBlockHandle,
    ) -> Result<Vec<u8>>
        ensures ok { IfOk result (λ bytes. IsReadAt self.now.files block bytes.items
            (F.disk file_system.now)) }
        ensures last { IfOk result (λ bytes. block.id.seq ≡ self.now.files.active.seq
            → HasFile self.now.files.active.handle.file (AreBytesAt block.offset block.len bytes.items)
            (F.disk file_system.now)) }
        ensures err { IfErr result (IsReadRefused self.now.files block (F.disk file_system.now)) }
    {
        let Some(handle) = self.files.handle_of(block.id.seq) else {
            return Err(unlisted(alloc, block.id.seq));
        };
        LogFileReader::open(handle).read(alloc, file_system, block, &mut Receipt::none())
    }

    /// Replaces the contents of `bytes` with the bytes at a location; fewer if the file ends first. Fails as
    /// `read_bytes` does; then `bytes` may hold anything.
    pub fn read_over<F: FileSystem>(
        &self,
        alloc: Global,
        file_system: &F,
        block: FileBlockHandle,
        bytes: &mut Vec<u8>,
    ) -> Result<()>
        ensures ok { OnOk result (IsReadAt self.now.files block bytes.new.items
            (F.disk file_system.now)) }
        ensures err { IfErr result (IsReadRefused self.now.files block (F.disk file_system.now)) }
    {
        let Some(handle) = self.files.handle_of(block.id.seq) else {
            return Err(unlisted(alloc, block.id.seq));
        };
        LogFileReader::open(handle).read_over(file_system, block, bytes, &mut Receipt::none())
    }
}

impl<G: PipeFormat + Drop> SinglePipe<G> {
    ghost use Rattle.std.specs.Prelude.{[], reverse};
    ghost use Rattle.raft_log_file_pipe.specs.Placing.{IsChosen};
    ghost use Rattle.raft_log_file_pipe.specs.Closing.{ClosesFiles, ClosesFilesAs, FinishesAs, FinishesOrNot, IsSettledBy, LeavesClosed, ReservesAll, StaysLeft, greatest_reserved};
    ghost use Rattle.raft_log_file_pipe.specs.Exits.{SameLists};
    ghost use Rattle.raft_log_file_pipe.specs.Opening.{OpenLeaves, OpensPipe};
    ghost use Rattle.raft_log_file_pipe.specs.Doing.{OpensPipeBy};

    /// Opens a pipe over what was found of its queue. If there is no file, the queue begins with file 1. Otherwise it
    /// continues after what was read of its last file, which is truncated there and synced. If that file has no header,
    /// it gets one of version 1.
    ///
    /// - `Memory`: nothing was done.
    /// - `InvalidArgument`: the last file's format has an alignment, and nothing was done.
    /// - `Io`: a file call failed; all records that were read are still there.
    pub fn open<F: FileSystem, L: Log>(
        alloc: Global,
        layout: G,
        settings: PipeSettings,
        rt: &L,
        file_system: &mut F,
        found: FoundFiles,
    ) -> Result<SinglePipe<G>>
        ensures ok { IfOk result (λ pipe. OpensPipe (G.format layout) (G.own layout) (G.file_paths layout)
            settings.new_files found pipe.files (F.disk file_system.old) (F.disk file_system.new)) }
        ensures placed { found.files.items ≡ [] → IfOk result (λ pipe.
            IsChosen (F.tells_space file_system.old) (F.disk file_system.old)
            settings.new_files.target_size (G.file_paths layout).directories pipe.files.active.path_id) }
        ensures fields { IfOk result (λ pipe. (pipe.layout ≡ layout) × (pipe.settings ≡ settings)
            × (pipe.failed ≡ false)) }
        ensures err { IfErr result (λ error. OpenLeaves (G.format layout) (G.own layout)
            (G.file_paths layout) settings.new_files found error
            (F.disk file_system.old) (F.disk file_system.new)) }
        ensures calls { IfOk result (λ pipe. OpensPipeBy (G.file_paths layout) settings.new_files.format
            found pipe.files (F.disk file_system.old) (F.disk file_system.new)) }
        ensures later { IsLater (F.disk file_system.old) (F.disk file_system.new) }
    {
        let files = open(alloc, &layout, rt, file_system, &settings.new_files, found)?;
        Ok(SinglePipe::new(layout, settings, files))
    }

    /// Closes the pipe: truncates its active file after its records and syncs it. Then the files that are kept for
    /// recycling get reserved names in the main directory, from the newest down until one has such a name. The numbers
    /// begin after the greatest reserved one. A file that gets no name doesn't fail the close.
    ///
    /// - `Ok`: all records are durable.
    /// - `Io`: the truncation or the sync failed; what was durable still is, and the names were given anyway.
    /// - `Failed`: the pipe had failed, and the disk is unchanged.
    pub fn close<F: FileSystem, L: Log>(
        self,
        alloc: Global,
        rt: &L,
        file_system: &mut F,
    ) -> Result<()>
        ensures held { self.failed ≡ false → LeavesClosed (G.format self.layout) (G.own self.layout)
            (G.file_paths self.layout) self.files (F.disk file_system.old) (F.disk file_system.new) }
        ensures settled { OnOk result (IsSettledBy (G.format self.layout) (G.own self.layout)
            (G.file_paths self.layout) self.files (F.disk file_system.old) (F.disk file_system.new)) }
        ensures calls { self.failed ≡ false → ClosesFiles (G.file_paths self.layout) self.files
            (F.disk file_system.old) (F.disk file_system.new) }
        ensures value { self.failed ≡ false → ClosesFilesAs (G.file_paths self.layout) self.files result
            (F.disk file_system.old) (F.disk file_system.new) }
        ensures failed { self.failed ≡ true → (result ≡ Err errors.Failed)
            × (F.disk file_system.new ≡ F.disk file_system.old) }
        ensures fails { IsTrue self.failed ↔ (result ≡ Err errors.Failed) }
        ensures later { IsLater (F.disk file_system.old) (F.disk file_system.new) }
    {
        if self.failed {
            return Err(Error::Failed);
        }
        let SinglePipe { layout, files, .. } = self;
        let mut files = files;
        let finished = finish(&layout, rt, file_system, &mut files);
        reserve_files(alloc, &layout, rt, file_system, files.recycled);
        finished
    }

    /// The first half of a close: truncates the active file after its records, and syncs it.
    ///
    /// - `Io`: the truncation or the sync failed; what was durable still is.
    /// - `Failed`: the pipe had failed, and the disk is unchanged.
    pub fn finish<F: FileSystem, L: Log>(&mut self, rt: &L, file_system: &mut F) -> Result<()>
        ensures held { self.old.failed ≡ false → LeavesClosed (G.format self.old.layout)
            (G.own self.old.layout) (G.file_paths self.old.layout) self.old.files
            (F.disk file_system.old) (F.disk file_system.new) }
        ensures settled { OnOk result (IsSettledBy (G.format self.old.layout) (G.own self.old.layout)
            (G.file_paths self.old.layout) self.old.files
            (F.disk file_system.old) (F.disk file_system.new)) }
        ensures calls { self.old.failed ≡ false → FinishesOrNot self.old.files.writer
            (F.disk file_system.old) (F.disk file_system.new) }
        ensures value { self.old.failed ≡ false → FinishesAs self.old.files.writer result
            (F.disk file_system.old) (F.disk file_system.new) }
        ensures failed { self.old.failed ≡ true → (result ≡ Err errors.Failed)
            × (F.disk file_system.new ≡ F.disk file_system.old) }
        ensures fails { IsTrue self.old.failed ↔ (result ≡ Err errors.Failed) }
        ensures same { (self.new.layout ≡ self.old.layout) × (self.new.settings ≡ self.old.settings)
            × (self.new.failed ≡ self.old.failed) × (self.new.files.recycled ≡ self.old.files.recycled) }
        ensures lists { SameLists self.old.files self.new.files }
        ensures later { IsLater (F.disk file_system.old) (F.disk file_system.new) }
    {
        if self.failed {
            return Err(Error::Failed);
        }
        finish(&self.layout, rt, file_system, &mut self.files)
    }

    /// The second half of a close: gives the files that are kept for recycling reserved names, as `close` does. If the
    /// pipe has failed, the disk is unchanged.
    pub fn reserve_names<F: FileSystem, L: Log>(self, alloc: Global, rt: &L, file_system: &mut F)
        ensures held { self.failed ≡ false → StaysLeft (G.format self.layout) (G.own self.layout)
            self.files.recycled.items (F.disk file_system.old) (F.disk file_system.new) }
        ensures calls { self.failed ≡ false → ReservesAll (G.file_paths self.layout)
            (reverse self.files.recycled.items) (greatest_reserved self.files.recycled.items)
            (F.disk file_system.old) (F.disk file_system.new) }
        ensures failed { self.failed ≡ true → F.disk file_system.new ≡ F.disk file_system.old }
        ensures later { IsLater (F.disk file_system.old) (F.disk file_system.new) }
    {
        if self.failed {
            return;
        }
        let SinglePipe { layout, files, .. } = self;
        reserve_files(alloc, &layout, rt, file_system, files.recycled);
    }
}
