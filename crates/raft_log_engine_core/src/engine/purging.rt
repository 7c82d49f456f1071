//! Garbage collection: rewrites live data and deletes files that are no longer needed.

ghost use Rattle.std.specs.Prelude.{◌≡◌, IfErr, IfOk, OnErr, OnOk};
ghost use Rattle.raft_log_record_base.specs.declared.pipe_log.LogQueue.TheVariants.{Append};
ghost use Rattle.raft_log_dual_pipes.specs.HoldingBack.{PipesHoldBack};
ghost use Rattle.raft_log_purge.specs.raft_log_purge_copy.specs.Owed.{OweNoMore};
ghost use Rattle.raft_log_purge.specs.raft_log_purge_copy.specs.Stale.{PurgesAllStale};
ghost use Rattle.raft_log_purge.specs.Append.{RewritesAppend};
ghost use Rattle.raft_log_purge.specs.Counted.{CountsAndResets, PurgesAndCounts};
ghost use Rattle.raft_log_purge.specs.Counting.{CountsTwice};
ghost use Rattle.raft_log_purge.specs.ExpiredFiles.{SyncsAndRewrites};
ghost use Rattle.raft_log_purge_steps.specs.Steps.{PurgesStep, StopsStep};
ghost use Rattle.raft_log_engine_core.specs.ModelCalls.{FollowsModel, ModelPurges};
ghost use Rattle.raft_log_engine_core.specs.Purging.{
  MayCountStanding,
  StopsCounting,
  StopsCountingIfPast,
  StopsPurging,
  StopsPurgingExpired,
  StopsRewritingAppend,
};
ghost use Rattle.raft_log_engine_core.specs.Reads.{shows_of, Lives};
ghost use Rattle.raft_log_engine_core.specs.Touching.{StaysPurged};

use super::LogEngine;
use log::Log;
use raft_log_dual_pipes::PipeLog;
use raft_log_purge::raft_log_purge_copy::purge_all_stale;
use raft_log_purge::{purge_and_count, rewrite_and_count, rewrite_append_and_count};
use raft_log_purge_steps::{PurgeStep, purge_some};
use raft_log_record_base::{Error, FileSeq, Result};

impl<P: PipeLog> LogEngine<P> {
    /// Syncs Append, and purges each queue that is past its threshold in the settings:
    /// - compacts Rewrite if enough of it is garbage;
    /// - writes Append's owed tombstones, and rewrites the groups that the rules pick;
    /// - deletes Append's files below the first in use, but none from the first pinned one on.
    ///
    /// Returns the groups that the caller should compact, in ascending order. If nine purges in a row asked for a group
    /// by the rules for Append, and the next one asks again, that one rewrites it. The log keeps its contents, and
    /// nothing is pending.
    ///
    /// If a queue is past its threshold, what is live in Rewrite is counted before and after, which takes time for each
    /// group. What was written there and is no longer live is garbage.
    ///
    /// Fails with `Failed` if the engine has failed, or with the errors of a sync, a rotation, the tombstones, the
    /// copies, and the deletions. Then the log keeps its contents; after `Failed`, an open finds them. This purge isn't
    /// counted among the nine. The old copies of groups that were written to Rewrite again count as garbage.
    pub fn purge_expired_files<L: Log>(&mut self, rt: &L) -> Result<Vec<u64>>
        ensures model { FollowsModel ModelPurges result (shows_of P.shown self.old) (shows_of P.shown self.new) }
        ensures ok { IfOk result (λ groups. PurgesAndCounts (PipesHoldBack P.shown P.holds_back Append)
            self.old.thresholds self.old.tables self.new.tables self.old.counts self.new.counts groups.items
            (shows_of P.shown self.old) (shows_of P.shown self.new)) }
        ensures lived { OnOk result (Lives (shows_of P.shown self.old)) }
        ensures err { IfErr result (StopsPurgingExpired
            (shows_of P.shown self.old) (shows_of P.shown self.new)) }
        ensures kept { OnErr result (StopsCountingIfPast (PipesHoldBack P.shown P.holds_back Append)
            self.old.thresholds self.old.tables self.old.counts self.new.counts
            (shows_of P.shown self.old) (shows_of P.shown self.new)) }
        ensures sizes { self.new.thresholds ≡ self.old.thresholds }
        ensures owes { OweNoMore (shows_of P.shown self.old).tables (shows_of P.shown self.new).tables }
    {
        if self.is_failed() {
            return Err(Error::Failed);
        }
        purge_and_count(
            self.alloc,
            rt,
            &self.thresholds,
            &mut self.pipes,
            &mut self.tables,
            &mut self.cache,
            &mut self.counts,
        )
    }

    /// Does one step of a purge of expired files, so that a caller needn't wait for a whole one. Repeat it while its
    /// result says that `more` may be due. A step copies groups until it has copied as many bytes as the budget, but at
    /// least one group; it may begin or end a compaction of Rewrite instead. An open forgets a compaction that was
    /// under way. The log keeps its contents, and nothing is pending.
    ///
    /// Fails as `purge_expired_files` does. Then the log keeps its contents, and the same compaction is under way.
    pub fn purge_some<L: Log>(&mut self, rt: &L, budget: u64) -> Result<PurgeStep>
        ensures model { FollowsModel ModelPurges result (shows_of P.shown self.old) (shows_of P.shown self.new) }
        ensures ok { IfOk result (λ step. PurgesStep (PipesHoldBack P.shown P.holds_back Append)
            self.old.thresholds budget self.old.compacting self.new.compacting self.old.tables self.new.tables
            self.old.counts self.new.counts step (shows_of P.shown self.old) (shows_of P.shown self.new)) }
        ensures lived { OnOk result (Lives (shows_of P.shown self.old)) }
        ensures err { IfErr result (StopsPurgingExpired
            (shows_of P.shown self.old) (shows_of P.shown self.new)) }
        ensures kept { OnErr result (StopsStep self.old.thresholds budget self.old.compacting self.new.compacting
            self.old.tables self.old.counts self.new.counts (shows_of P.shown self.old) (shows_of P.shown self.new)) }
        ensures sizes { self.new.thresholds ≡ self.old.thresholds }
        ensures owes { OweNoMore (shows_of P.shown self.old).tables (shows_of P.shown self.new).tables }
    {
        if self.is_failed() {
            return Err(Error::Failed);
        }
        purge_some(
            self.alloc,
            rt,
            &self.thresholds,
            &mut self.pipes,
            &mut self.tables,
            &mut self.cache,
            &mut self.counts,
            &mut self.compacting,
            budget,
        )
    }

    /// Compacts Rewrite, whatever its size is: syncs Append, writes what is live in Rewrite there again, and deletes
    /// its old files, pinned or not. The log keeps its contents, and nothing is pending.
    ///
    /// Fails with `Failed` if the engine has failed, or with the errors of a sync, a rotation, the writes, and the
    /// deletions. The log keeps its contents then, and the old copies of groups that were written again count as
    /// garbage.
    pub fn must_rewrite_rewrite_queue<L: Log>(&mut self, rt: &L) -> Result<()>
        ensures model { FollowsModel ModelPurges result (shows_of P.shown self.old) (shows_of P.shown self.new) }
        ensures ok { OnOk result (SyncsAndRewrites self.new.tables
            (shows_of P.shown self.old) (shows_of P.shown self.new)) }
        ensures lived { OnOk result (Lives (shows_of P.shown self.old)) }
        ensures err { IfErr result (StopsPurgingExpired
            (shows_of P.shown self.old) (shows_of P.shown self.new)) }
        ensures reset { OnOk result (CountsAndResets self.old.tables self.old.counts self.new.counts) }
        ensures kept { OnErr result (StopsCounting self.old.tables self.old.counts self.new.counts
            (shows_of P.shown self.old) (shows_of P.shown self.new)) }
        ensures sizes { self.new.thresholds ≡ self.old.thresholds }
        ensures owes { OweNoMore (shows_of P.shown self.old).tables (shows_of P.shown self.new).tables }
    {
        if self.is_failed() {
            return Err(Error::Failed);
        }
        rewrite_and_count(
            self.alloc,
            rt,
            &mut self.pipes,
            &mut self.tables,
            &mut self.cache,
            &mut self.counts,
        )
    }

    /// Rewrites Append up to a file, the watermark: at most the last file, which is also the default. Ignores pins.
    /// 1. Syncs Append, rotates it if the last file is to be rewritten, and writes the owed tombstones.
    /// 2. Copies what all groups have in files up to the watermark to Rewrite, and syncs Rewrite.
    /// 3. Removes the files up to the watermark from Append's live range, and all others below the first in use.
    ///
    /// With `exit_after_step` it ends after step `Some(1)` or `Some(2)`. The log keeps its contents, and nothing is
    /// pending.
    ///
    /// Fails with `Failed` if the engine has failed, or with the errors of a sync, a rotation, the tombstones, the
    /// copies, and the deletions. The log keeps its contents then.
    pub fn must_rewrite_append_queue<L: Log>(
        &mut self,
        rt: &L,
        watermark: Option<FileSeq>,
        exit_after_step: Option<u64>,
    ) -> Result<()>
        ensures model { FollowsModel ModelPurges result (shows_of P.shown self.old) (shows_of P.shown self.new) }
        ensures ok { OnOk result (RewritesAppend watermark exit_after_step self.new.tables
            (shows_of P.shown self.old) (shows_of P.shown self.new)) }
        ensures lived { OnOk result (Lives (shows_of P.shown self.old)) }
        ensures err { IfErr result (StopsRewritingAppend
            (shows_of P.shown self.old) (shows_of P.shown self.new)) }
        ensures counted { OnOk result (CountsTwice self.old.tables self.new.tables
            self.old.counts self.new.counts) }
        ensures kept { OnErr result (MayCountStanding self.old.tables self.old.counts self.new.counts) }
        ensures sizes { self.new.thresholds ≡ self.old.thresholds }
        ensures owes { OweNoMore (shows_of P.shown self.old).tables (shows_of P.shown self.new).tables }
    {
        if self.is_failed() {
            return Err(Error::Failed);
        }
        rewrite_append_and_count(
            self.alloc,
            rt,
            &mut self.pipes,
            &mut self.tables,
            &mut self.cache,
            &mut self.counts,
            watermark,
            exit_after_step,
        )
    }

    /// Syncs Append and writes the owed tombstones. Then rotates each queue, Rewrite first, and deletes its files below
    /// the first in use. Ignores pins, and copies nothing. The log keeps its contents, and nothing is pending.
    ///
    /// Fails with `Failed` if the engine has failed, or with the errors of a sync, the tombstones, a rotation, and the
    /// deletions. The log keeps its contents then.
    pub fn must_purge_all_stale<L: Log>(&mut self, rt: &L) -> Result<()>
        ensures model { FollowsModel ModelPurges result (shows_of P.shown self.old) (shows_of P.shown self.new) }
        ensures ok { OnOk result (PurgesAllStale self.new.tables
            (shows_of P.shown self.old) (shows_of P.shown self.new)) }
        ensures lived { OnOk result (Lives (shows_of P.shown self.old)) }
        ensures err { IfErr result (StopsPurging
            (shows_of P.shown self.old) (shows_of P.shown self.new)) }
        ensures purges { StaysPurged self.old self.new }
        ensures owes { OweNoMore (shows_of P.shown self.old).tables (shows_of P.shown self.new).tables }
    {
        if self.is_failed() {
            return Err(Error::Failed);
        }
        purge_all_stale(
            self.alloc,
            rt,
            &mut self.pipes,
            &mut self.tables,
            &mut self.cache,
        )
    }
}
