//! Calls that an engine served.
use raft_log_record_batches::LogBatch;
use raft_log_world::{Answer, Call};

/// A call of the engine, and how it ended.
#[derive(Drop)]
pub struct Served {
    /// The call.
    pub call: Call<LogBatch>,
    /// How it ended.
    pub answer: Answer,
}
