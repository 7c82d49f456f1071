//! Files that nobody pins leave Append's live range.

ghost use Rattle.raft_log_record_base.specs.declared.pipe_log.LogQueue.TheVariants.{Append};
ghost use Rattle.raft_log_dual_pipes.specs.HoldingBack.{PipesHoldBack};
ghost use Rattle.raft_log_purge.specs.Free.{FreeFilesGo};

use raft_log_dual_pipes::PipeLog;

/// If nothing is pinned and Append is past its threshold, a purge shortens its live range. All files leave it that are
/// below the active file and below the first one in use.
pub fn free_files_go<P: PipeLog>()
    ensures { FreeFilesGo (PipesHoldBack P.shown P.holds_back Append) }
{}
