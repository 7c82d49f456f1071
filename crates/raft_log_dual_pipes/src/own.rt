//! The log's own two queues.

ghost use Rattle.raft_log_model_laws.specs.Item.{Record};
ghost use Rattle.raft_log_active_file.specs.declared.record.LogRecord.{LogRecord};
ghost use Rattle.raft_log_dual_pipes.specs.Own.{LogHasTwoQueues};

/// Append and Rewrite meet the premises of this crate's laws on two queues, whatever their records say. Each needs a
/// directory; it may be the same for both.
pub fn log_has_two_queues<E, V>()
    ensures { (says : LogRecord → Record E V) → LogHasTwoQueues says }
{}
