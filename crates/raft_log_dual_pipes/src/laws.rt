//! What is pinned against a purge if there is no listener.

ghost use Rattle.raft_log_record_base.specs.declared.pipe_log.LogQueue.{LogQueue};
ghost use Rattle.raft_log_dual_pipes.specs.HoldingBack.{NothingIsHeldBack, PipesHoldBack};

use crate::dual_pipes::DualPipes;
use crate::pipe_log::PipeLog;
use raft_log_fs::FileSystem;

/// Pipes without a listener pin nothing.
pub fn nobody_holds_back<F: FileSystem>()
    ensures { (queue : LogQueue) → NothingIsHeldBack (PipesHoldBack
        ⟦<DualPipes<F> as PipeLog>⟧.shown ⟦<DualPipes<F> as PipeLog>⟧.holds_back queue) }
{}
