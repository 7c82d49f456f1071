//! From a log's directories to the contents of its files.

ghost use Rattle.std.specs.Prelude.{◌≡◌, ◌≤◌, ◌↔◌, length, IfErr, IfOk, IsTrue, OnErr, OnOk, []};

mod in_turn;

use crate::clearing::clear_old;
use crate::cutting::cut_files;
use crate::finishing::{recovered_pipe, unread, wanted_pipe};
use crate::paths::paths;
use crate::reading::recover_both;
use crate::ready_reserved;
use crate::recovered_queue::RecoveredQueue;
use crate::syncing::sync_files;
use crate::unaligned::{aligned, have_no_padding};
use log::Log;
use raft_log_active_file::{File, LogLayout};
use raft_log_dual_pipes::{DualPipes, FoundPipe, OpenRefused, PipeLog};
use raft_log_file_settings::Config;
use raft_log_fs::FileSystem;
use raft_log_record_base::{Error, LogQueue, Result};
use raft_log_recovery_read::FileEnding;
use raft_log_recovery_scan::scanning::{ScannedFiles, scan};
use raft_log_recovery_scan::{RecoveryConfig, share_workers};
use raft_log_replay::{Factory, ReadSegments, ReplayMachine, ReplayThreads};
use std::alloc::Global;
use std::io::ErrorKind;
use std::marker::Send;
use std::mem;
use std::thread::Threads;

/// Scans the directories of a log, and recovers its files, in this order. Each call borrows the file system.
#[derive(Drop)]
pub struct DualPipesBuilder {
    config: Config,
    append: RecoveredQueue,
    rewrite: RecoveredQueue,
    reserved: Vec<File>,
}

impl DualPipesBuilder {
    ghost use Rattle.raft_log_record_base.specs.declared.pipe_log.LogQueue.TheVariants.{Append, Rewrite};
    ghost use Rattle.raft_log_recovery.specs.Finishing.{FailsToOpenRecovered, FailsToSyncLog, IsAllRead, IsUnready, IsWantedAs, OpensRecovered, SyncsLog};
    ghost use Rattle.raft_log_recovery.specs.ForReading.{CutsBoth, FailsToCutBoth, HasReadQueues, QueuesAreUnread, ReadsLog};
    ghost use Rattle.raft_log_recovery.specs.Recovering.{FailsToRecoverLog, RecoversLog, append_files, rewrite_files};
    ghost use Rattle.raft_log_recovery.specs.RecoveringQueue.{FailsToRecoverFiles, OtherQueueIsKept, RecoversFiles, queue_files};
    ghost use Rattle.raft_log_recovery.specs.Reserving.{FailsToReadyLog, LeavesReserved, ReadiesLog};
    ghost use Rattle.raft_log_recovery.specs.Scanning.{FailsToScanLog, ScansLog};

    /// A builder that has scanned nothing: its log has no file.
    pub fn new(alloc: Global, config: Config) -> DualPipesBuilder
        ensures config { result.config ≡ config }
        ensures append { (result.append.files.items ≡ []) × (result.append.endings.items ≡ []) }
        ensures rewrite { (result.rewrite.files.items ≡ []) × (result.rewrite.endings.items ≡ []) }
        ensures reserved { result.reserved.items ≡ [] }
    {
        DualPipesBuilder {
            config,
            append: RecoveredQueue::new(alloc, Vec::new(alloc)),
            rewrite: RecoveredQueue::new(alloc, Vec::new(alloc)),
            reserved: Vec::new(alloc),
        }
    }

    /// The settings of the log.
    pub fn config(&self) -> &Config
        ensures { result.now ≡ self.now.config }
    {
        &self.config
    }

    /// Finds and opens the log's files, of each queue those after the last gap in their numbers. Makes missing
    /// directories, and changes no file. Deletes the metadata that the file system keeps for files below the first
    /// ones; a failure of that is logged.
    ///
    /// If it fails, the builder is unchanged; directories may have been made. Fails:
    /// - with `Other` if a file has the path of a directory
    /// - with `Corruption` if a name begins with a number and has more between it and the end
    /// - with `Io` if a directory isn't made or the file system has stopped
    /// - with `Memory`
    pub fn scan<F: FileSystem, L: Log>(
        &mut self,
        alloc: Global,
        rt: &L,
        file_system: &mut F,
    ) -> Result<()>
        ensures ok { OnOk result
            (ScansLog self.old self.new (F.disk file_system.old) (F.disk file_system.new)) }
        ensures err { IfErr result (λ error.
            FailsToScanLog self.old error (F.disk file_system.old) (F.disk file_system.new)) }
        ensures same { OnErr result (self.new ≡ self.old) }
    {
        let paths = paths(alloc, &self.config)?;
        let mode = self.config.recovery_mode;
        let found = scan(alloc, rt, file_system, paths.as_slice(), mode)?;
        clear_old(alloc, rt, file_system, paths.as_slice(), &found)?;
        let ScannedFiles {
            append,
            rewrite,
            reserved,
        } = found;
        self.append = RecoveredQueue::new(alloc, append);
        self.rewrite = RecoveredQueue::new(alloc, rewrite);
        self.reserved = reserved;
        Ok(())
    }

    /// Reads both queues at once, each by its share of the workers, into machines. Then truncates the damaged files,
    /// Append's first, each after its last good record, and syncs them. Returns Append's machine and Rewrite's. The
    /// settings need at least one worker, as `sanitize` leaves them: without one, files may stay unread, and `finish`
    /// fails then.
    ///
    /// Truncates nothing unless all files of both queues could be read and none has an alignment. If it fails, the
    /// builder is unchanged. Fails:
    /// - with `Io` if a read fails, which is never taken for damage
    /// - with `Corruption` for damage that isn't tolerated, and for a foreign record: it is whole, but has a
    ///   compression that isn't read
    /// - with a machine's error if it declines batches
    /// - with `InvalidArgument` for an alignment, or with `Memory`
    /// - with `Io` if a file isn't truncated or synced; the damaged ones before it are
    pub fn recover<
        R: Threads + Log + Sync,
        F: FileSystem + Sync,
        M: ReplayMachine + Send,
        FA: Factory<M>,
    >(&mut self, rt: &R, alloc: Global, file_system: &mut F, factory: &FA) -> Result<(M, M)>
        ensures ok { IfOk result (λ both. RecoversLog M.reads both.0 both.1 self.old self.new
            (F.disk file_system.old) (F.disk file_system.new)) }
        ensures err { IfErr result (λ error. FailsToRecoverLog M.reads M.declines self.old error
            (F.disk file_system.old) (F.disk file_system.new)) }
        ensures same { OnErr result (self.new ≡ self.old) }
    {
        self.recover_by(rt, alloc, ReplayThreads::Rayon, file_system, factory)
    }

    /// Recovers the log as `recover` does, but reads it by scoped threads: one for each chunk of both queues, however
    /// many processors there are. Fails as `recover` does.
    pub fn recover_scoped<
        R: Threads + Log + Sync,
        F: FileSystem + Sync,
        M: ReplayMachine + Send,
        FA: Factory<M>,
    >(&mut self, rt: &R, alloc: Global, file_system: &mut F, factory: &FA) -> Result<(M, M)>
        ensures ok { IfOk result (λ both. RecoversLog M.reads both.0 both.1 self.old self.new
            (F.disk file_system.old) (F.disk file_system.new)) }
        ensures err { IfErr result (λ error. FailsToRecoverLog M.reads M.declines self.old error
            (F.disk file_system.old) (F.disk file_system.new)) }
        ensures same { OnErr result (self.new ≡ self.old) }
    {
        self.recover_by(rt, alloc, ReplayThreads::Scoped, file_system, factory)
    }

    /// Recovers the log as `recover` does, by these threads. Fails as `recover` does.
    pub fn recover_by<
        R: Threads + Log + Sync,
        F: FileSystem + Sync,
        M: ReplayMachine + Send,
        FA: Factory<M>,
    >(
        &mut self,
        rt: &R,
        alloc: Global,
        threads: ReplayThreads,
        file_system: &mut F,
        factory: &FA,
    ) -> Result<(M, M)>
        ensures ok { IfOk result (λ both. RecoversLog M.reads both.0 both.1 self.old self.new
            (F.disk file_system.old) (F.disk file_system.new)) }
        ensures err { IfErr result (λ error. FailsToRecoverLog M.reads M.declines self.old error
            (F.disk file_system.old) (F.disk file_system.new)) }
        ensures same { OnErr result (self.new ≡ self.old) }
    {
        let (append, rewrite) = self.read_both(rt, alloc, threads, file_system, factory)?;
        if !have_no_padding(&append.endings) || !have_no_padding(&rewrite.endings) {
            return Err(aligned(alloc));
        }
        self.cut_both(rt, alloc, file_system, &append.endings, &rewrite.endings)?;
        self.append.endings = append.endings;
        self.rewrite.endings = rewrite.endings;
        Ok((append.machine, rewrite.machine))
    }

    /// Reads both queues as `recover` does, and changes nothing: no damaged file is truncated. Takes files with an
    /// alignment too. It is for callers that read the log and open no pipe over it: the builder keeps no result. Fails
    /// as `recover` does if a file isn't read.
    pub fn recover_for_reading<
        R: Threads + Sync,
        F: FileSystem + Sync,
        M: ReplayMachine + Send,
        FA: Factory<M>,
    >(&self, rt: &R, alloc: Global, file_system: &F, factory: &FA) -> Result<(M, M)>
        ensures ok { IfOk result (λ both. ReadsLog M.reads both.0 both.1 self.now (F.disk file_system.now)) }
        ensures err { IfErr result
            (QueuesAreUnread M.reads M.declines self.now (F.disk file_system.now)) }
    {
        let threads = ReplayThreads::Rayon;
        let (append, rewrite) = self.read_both(rt, alloc, threads, file_system, factory)?;
        Ok((append.machine, rewrite.machine))
    }

    /// Reads both queues at once, each by its share of the workers, by these threads. Changes nothing.
    ///
    /// Fails with Append's error if Append isn't read, else with Rewrite's.
    fn read_both<R: Threads + Sync, F: FileSystem + Sync, M: ReplayMachine + Send, FA: Factory<M>>(
        &self,
        rt: &R,
        alloc: Global,
        threads: ReplayThreads,
        file_system: &F,
        factory: &FA,
    ) -> Result<(ReadSegments<M, FileEnding>, ReadSegments<M, FileEnding>)>
        ensures ok { IfOk result (λ both. HasReadQueues M.reads self.now (F.disk file_system.now)
            both.0.machine both.1.machine both.0.endings.items both.1.endings.items) }
        ensures err { IfErr result
            (QueuesAreUnread M.reads M.declines self.now (F.disk file_system.now)) }
    {
        let (count, others) = (self.append.files.len(), self.rewrite.files.len());
        let workers = share_workers(self.config.recovery_threads, count, others);
        let append = RecoveryConfig::new(&self.config, LogQueue::Append, workers.append);
        let rewrite = RecoveryConfig::new(&self.config, LogQueue::Rewrite, workers.rewrite);
        let (append, rewrite) = recover_both(
            rt,
            alloc,
            threads,
            file_system,
            append,
            &self.append.files,
            rewrite,
            &self.rewrite.files,
            factory,
        );
        let append = append?;
        let rewrite = rewrite?;
        Ok((append, rewrite))
    }

    /// Truncates the damaged files of both queues, Append's first, and syncs them. If it fails, those before the failed
    /// one are truncated and synced.
    pub(crate) fn cut_both<F: FileSystem, L: Log>(
        &self,
        rt: &L,
        alloc: Global,
        file_system: &mut F,
        append: &[FileEnding],
        rewrite: &[FileEnding],
    ) -> Result<(), ErrorKind>
        requires { (length append.now ≤ length (append_files self.now))
            × (length rewrite.now ≤ length (rewrite_files self.now)) }
        ensures ok { OnOk result (CutsBoth self.now append.now rewrite.now
            (F.disk file_system.old) (F.disk file_system.new)) }
        ensures err { IfErr result (λ kind. FailsToCutBoth self.now append.now rewrite.now kind
            (F.disk file_system.old) (F.disk file_system.new)) }
    {
        cut_files(
            rt,
            alloc,
            file_system,
            &self.config,
            LogQueue::Append,
            &self.append.files,
            append,
        )?;
        cut_files(
            rt,
            alloc,
            file_system,
            &self.config,
            LogQueue::Rewrite,
            &self.rewrite.files,
            rewrite,
        )
    }

    /// Reads the queue that `config` names, by as many workers as it says, and returns the machine that has read it.
    /// Then truncates its damaged files, each after its last good record, and syncs them. Leaves the other queue. Fails
    /// as `recover` does; the builder is unchanged then.
    pub fn recover_queue<
        R: Threads + Log + Sync,
        F: FileSystem + Sync,
        M: ReplayMachine + Send,
        FA: Factory<M>,
    >(
        &mut self,
        rt: &R,
        alloc: Global,
        file_system: &mut F,
        config: RecoveryConfig,
        factory: &FA,
    ) -> Result<M>
        ensures ok { IfOk result (λ machine. RecoversFiles M.reads config machine
            (queue_files config.queue self.old) (queue_files config.queue self.new)
            (F.disk file_system.old) (F.disk file_system.new)) }
        ensures err { IfErr result (λ error. FailsToRecoverFiles M.reads M.declines config
            (queue_files config.queue self.old) error (F.disk file_system.old) (F.disk file_system.new)) }
        ensures same { OnErr result (self.new ≡ self.old) }
        ensures others { OtherQueueIsKept config.queue self.old self.new }
    {
        let settings = &self.config;
        match config.queue {
            LogQueue::Append => self
                .append
                .recover(rt, alloc, file_system, settings, config, factory),
            LogQueue::Rewrite => self
                .rewrite
                .recover(rt, alloc, file_system, settings, config, factory),
        }
    }

    /// Prepares the reserved files. Makes files, filled with zeros, until there are `prefill_capacity` of them, or
    /// fewer if Append's files and these would be more than `recycle_capacity`. Deletes those past that, from the
    /// newest on; if a write finds no space, deletes all. A write or a deletion that fails is only logged. Call it
    /// after `scan` and before `finish`.
    ///
    /// Fails with `Memory` before anything is done, and leaves the builder unchanged. Later it fails with `Io` if a
    /// file isn't made, with `NumberRange` if one to be made or deleted has no name, or with `Memory`. Then files may
    /// have been made or deleted, and the builder has no reserved file.
    pub fn initialize_files<F: FileSystem, L: Log>(
        &mut self,
        alloc: Global,
        rt: &L,
        file_system: &mut F,
    ) -> Result<()>
        ensures ok { OnOk result
            (ReadiesLog F.disk F.tells_space self.old self.new file_system.old file_system.new) }
        ensures err { IfErr result (λ error.
            FailsToReadyLog F.disk F.tells_space self.old error file_system.old file_system.new) }
        ensures left { OnErr result
            (LeavesReserved self.old self.new (F.disk file_system.old) (F.disk file_system.new)) }
        ensures same { (self.new.config ≡ self.old.config) × (self.new.append ≡ self.old.append)
            × (self.new.rewrite ≡ self.old.rewrite) }
    {
        let layout = LogLayout::new(LogQueue::Append, paths(alloc, &self.config)?);
        let size = self.config.target_file_size.0 as usize;
        let room = self
            .config
            .recycle_capacity()
            .saturating_sub(self.append.files.len());
        let wanted = self.config.prefill_capacity().min(room);
        let reserved = mem::replace(&mut self.reserved, Vec::new(alloc));
        self.reserved = ready_reserved(alloc, &layout, rt, file_system, size, wanted, reserved)?;
        Ok(())
    }

    /// Syncs all files that were recovered, and those that are kept for recycling. Then opens the log's pipes over
    /// them, Append's first. The file system moves to the pipes.
    ///
    /// Old records in a file kept for recycling don't count under its next number, because the signature differs: in
    /// version 2, the low 32 bits of the number are part of each record's checksum.
    ///
    /// If it fails, the file system is returned. Fails with `InvalidArgument` if not all files were recovered, or with
    /// `Memory`: then nothing was done. Fails with `Io` if a file isn't synced, or as the open of either pipe does.
    /// Then another builder may scan the files again.
    pub fn finish<F: FileSystem, L: Log>(
        self,
        alloc: Global,
        rt: &L,
        file_system: F,
    ) -> Result<DualPipes<F>, OpenRefused<F>>
        ensures ok { IfOk result (λ pipes. OpensRecovered self (F.disk file_system)
            (⟦<DualPipes<F> as PipeLog>⟧.shown pipes)) }
        ensures err { IfErr result (λ refused. FailsToOpenRecovered self refused.error
            (F.disk file_system) (F.disk refused.file_system)) }
    {
        let mut file_system = file_system;
        let (append, rewrite) = match self.wanted_pipes(alloc) {
            Ok(pipes) => pipes,
            Err(error) => return Err(OpenRefused { error, file_system }),
        };
        if let Err(kind) = self.sync_all(&mut file_system) {
            let error = Error::Io(kind);
            return Err(OpenRefused { error, file_system });
        }
        let DualPipesBuilder {
            append: append_files,
            rewrite: rewrite_files,
            reserved,
            ..
        } = self;
        let append = recovered_pipe(append, append_files, reserved);
        let rewrite = recovered_pipe(rewrite, rewrite_files, Vec::new(alloc));
        DualPipes::open(alloc, rt, file_system, append, rewrite)
    }

    /// Whether all files were recovered.
    fn is_read(&self) -> bool
        ensures { IsTrue result ↔ IsAllRead self.now }
    {
        self.append.is_read() && self.rewrite.is_read()
    }

    /// The pipes that the settings want, if all files were recovered. Fails with `InvalidArgument` if some weren't,
    /// or with `Memory`.
    fn wanted_pipes(&self, alloc: Global) -> Result<(FoundPipe, FoundPipe)>
        ensures ok { IfOk result (λ pipes. IsAllRead self.now × IsWantedAs Append self.now.config pipes.0
            × IsWantedAs Rewrite self.now.config pipes.1) }
        ensures err { IfErr result (IsUnready self.now) }
    {
        if !self.is_read() {
            return Err(unread(alloc));
        }
        let append = wanted_pipe(alloc, &self.config, LogQueue::Append)?;
        let rewrite = wanted_pipe(alloc, &self.config, LogQueue::Rewrite)?;
        Ok((append, rewrite))
    }

    /// Syncs the files of both queues, Append's first, and then those that are kept for recycling. If it fails, those
    /// before the failed one are synced.
    fn sync_all<F: FileSystem>(&self, file_system: &mut F) -> Result<(), ErrorKind>
        ensures ok { OnOk result
            (SyncsLog self.now (F.disk file_system.old) (F.disk file_system.new)) }
        ensures err { IfErr result (λ kind.
            FailsToSyncLog self.now kind (F.disk file_system.old) (F.disk file_system.new)) }
    {
        sync_files(file_system, &self.append.files)?;
        sync_files(file_system, &self.rewrite.files)?;
        sync_files(file_system, &self.reserved)
    }
}
