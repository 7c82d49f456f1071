//! Calls about the log as a whole.

ghost use Rattle.std.specs.Prelude.{◌≡◌, IfErr, IfOk, OnErr, OnOk};
ghost use Rattle.raft_log_dual_pipes.specs.Calls.{ArmsNoPipes};
ghost use Rattle.raft_log_engine_core.specs.Reads.{shows_of, IsFailed, Lives};
ghost use Rattle.raft_log_engine_core.specs.Touching.{StaysPurged};
ghost use Rattle.raft_log_engine_core.specs.Whole.{used_size, ArmsEngine, TellsSpan};

use super::LogEngine;
use raft_log_dual_pipes::PipeLog;
use raft_log_fs::Fault;
use raft_log_record_base::{Error, FileSeq, LogQueue, Result};

impl<P: PipeLog> LogEngine<P> {
    /// The file system.
    pub fn file_system(&self) -> &P::Files
        ensures { result.now ≡ P.files self.now.pipes }
    {
        self.pipes.file_system()
    }

    /// Arms a fault of the file system, which makes later calls fail. Nothing else of the engine's state changes.
    ///
    /// Fails with `Io` if the file system has stopped, or memory ran out; then nothing is armed.
    pub fn arm(&mut self, fault: &Fault) -> Result<()>
        ensures ok { OnOk result
            (ArmsEngine fault.now (shows_of P.shown self.old) (shows_of P.shown self.new)) }
        ensures armed { OnOk result
            (P.arms_files fault.now (P.files self.old.pipes) (P.files self.new.pipes)) }
        ensures err { OnErr result (shows_of P.shown self.new ≡ shows_of P.shown self.old) }
        ensures purges { StaysPurged self.old self.new }
        ensures told { P.listener self.new.pipes ≡ P.listener self.old.pipes }
        ensures cause { IfErr result (ArmsNoPipes (P.shown self.old.pipes)) }
    {
        self.pipes.arm(fault)
    }

    /// The numbers of the first and the last file of a queue's live range. Fails with `Failed` if the engine has
    /// failed.
    pub fn file_span(&self, queue: LogQueue) -> Result<(FileSeq, FileSeq)>
        ensures ok { IfOk result (λ span. TellsSpan queue (P.shown self.now.pipes) span.0 span.1) }
        ensures lived { OnOk result (Lives (shows_of P.shown self.now)) }
        ensures err { IfErr result (IsFailed (shows_of P.shown self.now)) }
    {
        if self.is_failed() {
            return Err(Error::Failed);
        }
        Ok(self.pipes.file_span(queue))
    }

    /// The size of both queues in bytes, with each file counted at its target size; at most 2^64 - 1. Fails with
    /// `Failed` if the engine has failed.
    pub fn get_used_size(&self) -> Result<usize>
        ensures ok { IfOk result (λ size. size ≡ used_size (P.shown self.now.pipes)) }
        ensures lived { OnOk result (Lives (shows_of P.shown self.now)) }
        ensures err { IfErr result (IsFailed (shows_of P.shown self.now)) }
    {
        if self.is_failed() {
            return Err(Error::Failed);
        }
        let append = self.pipes.total_size(LogQueue::Append);
        let rewrite = self.pipes.total_size(LogQueue::Rewrite);
        Ok(append.saturating_add(rewrite))
    }
}
