//! The two queues of a log.

ghost use Rattle.raft_log_model_laws.specs.Item.{Record};
ghost use Rattle.raft_log_dual_pipes.specs.Queues.{AreTwoQueues, TwoQueues};

/// States how the files of a log's two queues are written, and what their records say.
pub trait LogQueues {
    /// A record, as it is written.
    type Record;

    /// What represents an entry.
    type Entry;

    /// What represents a key's value.
    type Value;

    ghost queues: { Self → TwoQueues Self.Record Self.Entry Self.Value };

    ghost lawful: { (log : Self) → AreTwoQueues (queues log) };
}
