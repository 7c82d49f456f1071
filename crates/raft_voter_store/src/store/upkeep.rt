//! Purges a store's files, and returns facts about them.
ghost use Rattle.std.specs.Prelude.{◌≡◌, ◌↔◌, false, true, Err, IsTrue, IfErr, IfOk, OnErr, OnOk};
ghost use Rattle.raft_log_record_base.specs.declared.errors.Error.TheVariants as errors;
ghost use Rattle.raft_log_record_base.specs.declared.pipe_log.LogQueue.TheVariants.{Append};
ghost use Rattle.raft_log_dual_pipes.specs.HoldingBack.{PipesHoldBack};
ghost use Rattle.raft_log_purge.specs.Append.{RewritesAppend};
ghost use Rattle.raft_log_purge.specs.Counted.{PurgesAndCounts};
ghost use Rattle.raft_log_purge.specs.ExpiredFiles.{SyncsAndRewrites};
ghost use Rattle.raft_log_purge_steps.specs.Steps.{PurgesStep};
ghost use Rattle.raft_log_engine.specs.raft_log_engine_core.specs.Purging.{StopsPurgingExpired, StopsRewritingAppend};
ghost use Rattle.raft_log_engine.specs.raft_log_engine_core.specs.Reads.{shows_of, IsFailed, Lives};
ghost use Rattle.raft_log_engine.specs.raft_log_engine_core.specs.Whole.{ArmsEngine, TellsSpan};

use super::LogVoterStore;
use log::Log;
use raft_log_engine::{Closed, Fault, FileSeq, LogQueue, PipeLog, PurgeStep, Result};

impl<P: PipeLog> LogVoterStore<P> {
    ghost use Rattle.raft_log_engine.specs.raft_log_fs.specs.Causes.{IsLater};
    ghost use Rattle.raft_log_engine.specs.raft_log_engine_laws.specs.EngineState.{has_failed};
    ghost use Rattle.raft_log_engine.specs.raft_log_dual_pipes.specs.Calls.{ArmsNoPipes};
    ghost use Rattle.raft_log_engine.specs.raft_log_dual_pipes.specs.ClosingCalls.{ClosesAs, ClosesLog, ClosesSettled};
    ghost use Rattle.raft_voter_durability_laws.specs.raft_log_engine_laws.specs.Syncing.{NotSynced, SyncsAppend};
    ghost use Rattle.raft_voter_store.specs.Counting.{after_purge, after_step, after_sync};
    ghost use Rattle.raft_voter_store.specs.Upkeep.{KeepsOrLeavesVoters, KeepsVoters};

    /// Whether the engine has failed: then no round is served until the log is opened again.
    pub fn is_failed(&self) -> bool
        ensures { result ≡ has_failed (shows_of P.shown self.now.engine) }
    {
        self.engine.is_failed()
    }

    /// Makes all that was written durable. If it fails, the error is `Failed`, the engine has failed, and nothing is
    /// written any more.
    pub fn sync<R: Log>(&mut self, rt: &R) -> Result<()>
        ensures ok { OnOk result (SyncsAppend
            (shows_of P.shown self.old.engine) (shows_of P.shown self.new.engine)) }
        ensures err { IfErr result (λ error. NotSynced error
            (shows_of P.shown self.old.engine) (shows_of P.shown self.new.engine)) }
        ensures outlines { self.new.outlines ≡ self.old.outlines }
        ensures work { self.new.work ≡ after_sync result self.old.work }
    {
        match self.engine.sync(rt) {
            Ok(()) => {
                self.work = self.work.with_sync();
                Ok(())
            }
            Err(error) => Err(error),
        }
    }

    /// The file system.
    pub fn file_system(&self) -> &P::Files
        ensures { result.now ≡ P.files self.now.engine.pipes }
    {
        self.engine.file_system()
    }

    /// The numbers of the first and the last file of a queue. Fails with `Failed` if the engine has failed.
    pub fn file_span(&self, queue: LogQueue) -> Result<(FileSeq, FileSeq)>
        ensures ok { IfOk result (λ span. TellsSpan queue (P.shown self.now.engine.pipes) span.0 span.1) }
        ensures lived { OnOk result (Lives (shows_of P.shown self.now.engine)) }
        ensures err { IfErr result (IsFailed (shows_of P.shown self.now.engine)) }
    {
        self.engine.file_span(queue)
    }

    /// Arms a fault of the file system: it changes which later calls fail, and nothing else. A place that it makes
    /// unreadable is marked on the disk. Fails with `Io` if the file system had stopped or memory runs out. Then
    /// nothing changes.
    pub fn arm(&mut self, fault: &Fault) -> Result<()>
        ensures ok { OnOk result (ArmsEngine fault.now
            (shows_of P.shown self.old.engine) (shows_of P.shown self.new.engine)) }
        ensures err { OnErr result
            (shows_of P.shown self.new.engine ≡ shows_of P.shown self.old.engine) }
        ensures armed { OnOk result (P.arms_files fault.now
            (P.files self.old.engine.pipes) (P.files self.new.engine.pipes)) }
        ensures outlines { self.new.outlines ≡ self.old.outlines }
        ensures work { self.new.work ≡ self.old.work }
        ensures cause { IfErr result (ArmsNoPipes (P.shown self.old.engine.pipes)) }
    {
        self.engine.arm(fault)
    }

    /// Purges the files of both queues if they are past the thresholds of the settings. Returns the groups that should
    /// be compacted, sorted. No stored voter changes, whether it succeeds or fails. If the engine has failed, its files
    /// can be opened with just these voters. The engine's page says which files are deleted, and why it fails.
    pub fn maintain<R: Log>(&mut self, rt: &R) -> Result<Vec<u64>>
        ensures ok { OnOk result (KeepsVoters
            (shows_of P.shown self.old.engine) (shows_of P.shown self.new.engine)) }
        ensures purges { IfOk result (λ groups. PurgesAndCounts (PipesHoldBack P.shown P.holds_back Append)
            self.old.engine.thresholds self.old.engine.tables self.new.engine.tables
            self.old.engine.counts self.new.engine.counts groups.items
            (shows_of P.shown self.old.engine) (shows_of P.shown self.new.engine)) }
        ensures lived { OnOk result (Lives (shows_of P.shown self.old.engine)) }
        ensures why { IfErr result (StopsPurgingExpired
            (shows_of P.shown self.old.engine) (shows_of P.shown self.new.engine)) }
        ensures err { IfErr result (λ error. KeepsOrLeavesVoters error
            (shows_of P.shown self.old.engine) (shows_of P.shown self.new.engine)) }
        ensures others { (self.new.outlines ≡ self.old.outlines)
            × (self.new.work ≡ after_purge result self.old.work) }
    {
        match self.engine.purge_expired_files(rt) {
            Ok(groups) => {
                self.work = self.work.with_purge();
                Ok(groups)
            }
            Err(error) => Err(error),
        }
    }

    /// Does one step of what `maintain` does, so that a node can serve rounds between two steps. Copies groups until it
    /// has copied as many bytes as the budget, but at least one group. Repeat it while its result says that `more` may
    /// be due. No stored voter changes; see `maintain` if the engine fails.
    pub fn purge_some<R: Log>(&mut self, rt: &R, budget: u64) -> Result<PurgeStep>
        ensures ok { OnOk result (KeepsVoters
            (shows_of P.shown self.old.engine) (shows_of P.shown self.new.engine)) }
        ensures purges { IfOk result (λ step. PurgesStep (PipesHoldBack P.shown P.holds_back Append)
            self.old.engine.thresholds budget self.old.engine.compacting self.new.engine.compacting
            self.old.engine.tables self.new.engine.tables self.old.engine.counts self.new.engine.counts step
            (shows_of P.shown self.old.engine) (shows_of P.shown self.new.engine)) }
        ensures lived { OnOk result (Lives (shows_of P.shown self.old.engine)) }
        ensures why { IfErr result (StopsPurgingExpired
            (shows_of P.shown self.old.engine) (shows_of P.shown self.new.engine)) }
        ensures err { IfErr result (λ error. KeepsOrLeavesVoters error
            (shows_of P.shown self.old.engine) (shows_of P.shown self.new.engine)) }
        ensures others { (self.new.outlines ≡ self.old.outlines)
            × (self.new.work ≡ after_step result self.old.work) }
    {
        match self.engine.purge_some(rt, budget) {
            Ok(step) => {
                self.work = self.work.with_step(step.more);
                Ok(step)
            }
            Err(error) => Err(error),
        }
    }

    /// Rewrites Append up to a file, the watermark, or up to its last one. With `exit_after_step` it ends after the
    /// first or the second of its steps. No stored voter changes; see `maintain` if the engine fails.
    pub fn must_rewrite_append_queue<R: Log>(
        &mut self,
        rt: &R,
        watermark: Option<FileSeq>,
        exit_after_step: Option<u64>,
    ) -> Result<()>
        ensures ok { OnOk result (KeepsVoters
            (shows_of P.shown self.old.engine) (shows_of P.shown self.new.engine)) }
        ensures purges { OnOk result (RewritesAppend watermark exit_after_step self.new.engine.tables
            (shows_of P.shown self.old.engine) (shows_of P.shown self.new.engine)) }
        ensures lived { OnOk result (Lives (shows_of P.shown self.old.engine)) }
        ensures why { IfErr result (StopsRewritingAppend
            (shows_of P.shown self.old.engine) (shows_of P.shown self.new.engine)) }
        ensures err { IfErr result (λ error. KeepsOrLeavesVoters error
            (shows_of P.shown self.old.engine) (shows_of P.shown self.new.engine)) }
        ensures others { (self.new.outlines ≡ self.old.outlines)
            × (self.new.work ≡ after_purge result self.old.work) }
    {
        match self
            .engine
            .must_rewrite_append_queue(rt, watermark, exit_after_step)
        {
            Ok(()) => {
                self.work = self.work.with_purge();
                Ok(())
            }
            Err(error) => Err(error),
        }
    }

    /// Compacts Rewrite, whatever its size is. No stored voter changes; see `maintain` if the engine fails.
    pub fn must_rewrite_rewrite_queue<R: Log>(&mut self, rt: &R) -> Result<()>
        ensures ok { OnOk result (KeepsVoters
            (shows_of P.shown self.old.engine) (shows_of P.shown self.new.engine)) }
        ensures purges { OnOk result (SyncsAndRewrites self.new.engine.tables
            (shows_of P.shown self.old.engine) (shows_of P.shown self.new.engine)) }
        ensures lived { OnOk result (Lives (shows_of P.shown self.old.engine)) }
        ensures why { IfErr result (StopsPurgingExpired
            (shows_of P.shown self.old.engine) (shows_of P.shown self.new.engine)) }
        ensures err { IfErr result (λ error. KeepsOrLeavesVoters error
            (shows_of P.shown self.old.engine) (shows_of P.shown self.new.engine)) }
        ensures others { (self.new.outlines ≡ self.old.outlines)
            × (self.new.work ≡ after_purge result self.old.work) }
    {
        match self.engine.must_rewrite_rewrite_queue(rt) {
            Ok(()) => {
                self.work = self.work.with_purge();
                Ok(())
            }
            Err(error) => Err(error),
        }
    }

    /// Closes the log, and returns the file system in any case.
    ///
    /// If the result is `Ok`, everything that the store wrote is durable. It fails with `Io` if truncating or syncing
    /// an active file failed. It fails with `Failed` if the engine had failed before; then it touches nothing.
    pub fn close<R: Log>(self, rt: &R) -> Closed<P::Files>
        ensures held { has_failed (shows_of P.shown self.engine) ≡ false
            → ClosesLog (P.shown self.engine.pipes) (P.disk_of result.files) }
        ensures settled { OnOk result.result
            (ClosesSettled (P.shown self.engine.pipes) (P.disk_of result.files)) }
        ensures value { has_failed (shows_of P.shown self.engine) ≡ false
            → ClosesAs (P.shown self.engine.pipes) result.result (P.disk_of result.files) }
        ensures failed { has_failed (shows_of P.shown self.engine) ≡ true
            → result.files ≡ P.files self.engine.pipes }
        ensures fails { IsTrue (has_failed (shows_of P.shown self.engine))
            ↔ (result.result ≡ Err errors.Failed) }
        ensures later { IsLater (P.shown self.engine.pipes).disk (P.disk_of result.files) }
    {
        let LogVoterStore {
            alloc: _alloc,
            engine,
            outlines: _outlines,
            batch: _batch,
            work: _work,
        } = self;
        engine.close(rt)
    }
}
