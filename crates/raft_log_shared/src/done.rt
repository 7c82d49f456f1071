//! Answers to callers.
ghost use Rattle.std.specs.Prelude.{◌≡◌, ◌+◌, ◌∷◌, [], true, length, Ok, Err, Some, IfNone, IfSome};
ghost use Rattle.raft_log_shared.specs.Calls.{answer_of, synced, wrote};
ghost use Rattle.raft_log_shared.specs.Receipts.{IsHome, is_due, is_later, sync_as, write_answer};

use crate::ask::Ask;
use crate::opening::Opening;
use crate::receipt::Receipt;
use raft_log_record_base::Result;
use raft_log_record_batches::LogBatch;

/// The answer to a caller: what is left of its batch, what the write returned, and the receipt.
#[derive(Drop)]
pub struct Done<L: Opening> {
    /// The request.
    pub ask: Ask<L>,
    /// What is left of the batch.
    pub batch: LogBatch,
    /// The length of the batch's record in bytes, or why the write failed.
    pub result: Result<usize>,
    /// The receipt.
    pub receipt: Receipt<L>,
    ghost home: { ∥ IsHome ask.batch batch result ∥₁ },
    ghost written: { receipt.written.1 ≡ wrote ask.batch (write_answer result receipt.synced) ∷ [] },
    ghost synced: { receipt.synced ≡ sync_as result receipt.synced },
    ghost later: { is_later receipt.written.0 receipt.synced ≡ true },
    ghost due: { is_due ask.sync result receipt.synced ≡ true },
}

/// Removes the answer to the request with this number from these, and returns it. Returns `None` if it isn't there.
pub fn fetch<L: Opening>(done: &mut Vec<Done<L>>, number: u64) -> Option<Done<L>>
    ensures some { IfSome result (λ answer. (answer.ask.number ≡ number)
        × (length done.new.items + 1 ≡ length done.old.items)) }
    ensures none { IfNone result (done.new.items ≡ done.old.items) }
{
    for index in 0..done.len() {
        if done[index].ask.number() == number {
            return Some(done.swap_remove(index));
        }
    }
    None
}

/// Whether the answer to the request with this number is among these.
pub fn has_answer<L: Opening>(done: &[Done<L>], number: u64) -> bool {
    done.iter().any(|answer| answer.ask.number() == number)
}
