//! The files of a queue that no pipe has open.

ghost use Rattle.std.specs.Prelude.{◌≡◌, ◌↔◌, [], IfErr, IfOk, IsTrue, OnErr, length};
ghost use Rattle.raft_log_recovery.specs.RecoveringQueue.{FailsToRecoverFiles, RecoversFiles};

use crate::cutting::cut_files;
use crate::reading::recover_files;
use crate::unaligned::{aligned, have_no_padding};
use log::Log;
use raft_log_active_file::File;
use raft_log_file_settings::Config;
use raft_log_fs::FileSystem;
use raft_log_record_base::Result;
use raft_log_recovery_read::FileEnding;
use raft_log_recovery_scan::RecoveryConfig;
use raft_log_replay::{Factory, ReplayMachine, ReplayThreads};
use std::alloc::Global;
use std::marker::Send;
use std::thread::Threads;

/// The files of a queue that a scan found, open, in the order of their numbers, and the results of a recovery for them.
#[derive(Drop, Debug)]
pub struct RecoveredQueue {
    /// The files.
    pub files: Vec<File>,
    /// The result of reading each file; empty before they were read.
    pub endings: Vec<FileEnding>,
}

impl RecoveredQueue {
    /// Files that weren't read.
    pub fn new(alloc: Global, files: Vec<File>) -> RecoveredQueue
        ensures files { result.files ≡ files }
        ensures endings { result.endings.items ≡ [] }
    {
        RecoveredQueue {
            files,
            endings: Vec::new(alloc),
        }
    }

    /// Whether each file has a result.
    pub fn is_read(&self) -> bool
        ensures { IsTrue result ↔ length self.now.endings.items ≡ length self.now.files.items }
    {
        self.endings.len() == self.files.len()
    }

    /// Reads the files by workers, and returns the machine that has read them. Then truncates the damaged ones, each
    /// after its last good record, and syncs them, in order. Logs what is truncated, with paths of the directories in
    /// `settings`.
    ///
    /// Truncates nothing unless all could be read and none has an alignment. If it fails, this queue's results are
    /// unchanged. Fails as `DualPipesBuilder::recover` does.
    pub fn recover<
        R: Threads + Log + Sync,
        F: FileSystem + Sync,
        M: ReplayMachine + Send,
        FA: Factory<M>,
    >(
        &mut self,
        rt: &R,
        alloc: Global,
        file_system: &mut F,
        settings: &Config,
        config: RecoveryConfig,
        factory: &FA,
    ) -> Result<M>
        ensures ok { IfOk result (λ machine. RecoversFiles M.reads config machine self.old self.new
            (F.disk file_system.old) (F.disk file_system.new)) }
        ensures err { IfErr result (λ error. FailsToRecoverFiles M.reads M.declines config self.old error
            (F.disk file_system.old) (F.disk file_system.new)) }
        ensures same { OnErr result (self.new ≡ self.old) }
    {
        let read = recover_files(
            rt,
            alloc,
            ReplayThreads::Rayon,
            file_system,
            config,
            &self.files,
            factory,
        )?;
        if !have_no_padding(&read.endings) {
            return Err(aligned(alloc));
        }
        cut_files(
            rt,
            alloc,
            file_system,
            settings,
            config.queue,
            &self.files,
            &read.endings,
        )?;
        self.endings = read.endings;
        Ok(read.machine)
    }
}
