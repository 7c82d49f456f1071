//! What a write of a shared engine returns.
use crate::opening::Opening;
use crate::receipt::Receipt;
use raft_log_record_base::Result;
use raft_log_record_batches::LogBatch;

/// What a write returns.
#[derive(Drop)]
pub struct Written<L: Opening> {
    /// The batch, emptied or kept.
    pub batch: LogBatch,
    /// The length of the batch's record in bytes, or why the write failed.
    pub result: Result<usize>,
    /// The receipt. `None` if memory ran out before the engine was called.
    pub receipt: Option<Receipt<L>>,
}
