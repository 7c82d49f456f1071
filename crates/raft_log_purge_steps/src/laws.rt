//! What a purge in steps does once no more is due.

ghost use Rattle.raft_log_record_base.specs.declared.pipe_log.LogQueue.TheVariants.{Append};
ghost use Rattle.raft_log_dual_pipes.specs.HoldingBack.{PipesHoldBack};
ghost use Rattle.raft_log_purge_steps.specs.Laws.{LastStepEndsAPurge};

use raft_log_dual_pipes::PipeLog;

/// If a step returns that no more is due, a purge is done: no compaction of Rewrite is under way or due. Append isn't
/// past its threshold, or this step purged it as a whole purge does. Then no group that the rules pick has anything in
/// Append up to the watermark.
pub fn last_step_ends_a_purge<P: PipeLog>()
    ensures { LastStepEndsAPurge (PipesHoldBack P.shown P.holds_back Append) }
{}
