//! Both queues are read on the caller's thread.

ghost use Rattle.std.specs.Prelude.{◌≡◌, IfErr, IfOk, OnErr};

use crate::builder::DualPipesBuilder;
use crate::reading::recover_files_in_turn;
use crate::unaligned::{aligned, have_no_padding};
use log::Log;
use raft_log_fs::FileSystem;
use raft_log_record_base::{LogQueue, Result};
use raft_log_recovery_read::FileEnding;
use raft_log_recovery_scan::{RecoveryConfig, share_workers};
use raft_log_replay::{Factory, ReadSegments, ReplayMachine};
use std::alloc::Global;

impl DualPipesBuilder {
    ghost use Rattle.raft_log_recovery.specs.ForReading.{HasReadQueues, QueuesAreUnread, ReadsLog};
    ghost use Rattle.raft_log_recovery.specs.Recovering.{FailsToRecoverLog, RecoversLog};

    /// Recovers the log as `recover` does, but reads it on the caller's thread: Append's files, and then Rewrite's.
    ///
    /// Fails as `recover` does.
    pub fn recover_in_turn<L: Log, F: FileSystem + Sync, M: ReplayMachine, FA: Factory<M>>(
        &mut self,
        rt: &L,
        alloc: Global,
        file_system: &mut F,
        factory: &FA,
    ) -> Result<(M, M)>
        ensures ok { IfOk result (λ both. RecoversLog M.reads both.0 both.1 self.old self.new
            (F.disk file_system.old) (F.disk file_system.new)) }
        ensures err { IfErr result (λ error. FailsToRecoverLog M.reads M.declines self.old error
            (F.disk file_system.old) (F.disk file_system.new)) }
        ensures same { OnErr result (self.new ≡ self.old) }
    {
        let (append, rewrite) = self.read_both_in_turn(alloc, file_system, factory)?;
        if !have_no_padding(&append.endings) || !have_no_padding(&rewrite.endings) {
            return Err(aligned(alloc));
        }
        self.cut_both(rt, alloc, file_system, &append.endings, &rewrite.endings)?;
        self.append.endings = append.endings;
        self.rewrite.endings = rewrite.endings;
        Ok((append.machine, rewrite.machine))
    }

    /// Reads both queues as `recover_for_reading` does, but on the caller's thread: Append's files, and then Rewrite's.
    pub fn recover_for_reading_in_turn<F: FileSystem + Sync, M: ReplayMachine, FA: Factory<M>>(
        &self,
        alloc: Global,
        file_system: &F,
        factory: &FA,
    ) -> Result<(M, M)>
        ensures ok { IfOk result (λ both. ReadsLog M.reads both.0 both.1 self.now (F.disk file_system.now)) }
        ensures err { IfErr result
            (QueuesAreUnread M.reads M.declines self.now (F.disk file_system.now)) }
    {
        let (append, rewrite) = self.read_both_in_turn(alloc, file_system, factory)?;
        Ok((append.machine, rewrite.machine))
    }

    /// Reads both queues on the caller's thread, Append first. Changes nothing. Fails with the first error.
    fn read_both_in_turn<F: FileSystem + Sync, M: ReplayMachine, FA: Factory<M>>(
        &self,
        alloc: Global,
        file_system: &F,
        factory: &FA,
    ) -> Result<(ReadSegments<M, FileEnding>, ReadSegments<M, FileEnding>)>
        ensures ok { IfOk result (λ both. HasReadQueues M.reads self.now (F.disk file_system.now)
            both.0.machine both.1.machine both.0.endings.items both.1.endings.items) }
        ensures err { IfErr result
            (QueuesAreUnread M.reads M.declines self.now (F.disk file_system.now)) }
    {
        let (count, others) = (self.append.files.len(), self.rewrite.files.len());
        let workers = share_workers(self.config.recovery_threads, count, others);
        let append = RecoveryConfig::new(&self.config, LogQueue::Append, workers.append);
        let rewrite = RecoveryConfig::new(&self.config, LogQueue::Rewrite, workers.rewrite);
        let append = recover_files_in_turn(
            alloc,
            file_system,
            append,
            &self.append.files,
            factory,
        )?;
        let rewrite = recover_files_in_turn(
            alloc,
            file_system,
            rewrite,
            &self.rewrite.files,
            factory,
        )?;
        Ok((append, rewrite))
    }
}
