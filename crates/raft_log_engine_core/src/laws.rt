//! Which files are pinned after a write.

ghost use Rattle.raft_log_engine_core.specs.Hearing.{BatchesHoldNothingBack};

use raft_log_dual_pipes::PipeLog;
use raft_log_file_listeners::{PurgeHook, ToldPipes};

/// After a batch was written, the purge hook pins the files that it pinned before. The exception is a write that
/// rotated to a file which it couldn't list. This holds over any pipes, and even if the sync failed.
pub fn batches_hold_nothing_back<P: PipeLog>()
    ensures { BatchesHoldNothingBack ⟦<ToldPipes<P, PurgeHook> as PipeLog>⟧.hears (λ listeners. listeners.1) }
{}
