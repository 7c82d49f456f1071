//! Laws on receipts of a shared engine. Each is the contract of an empty function.
ghost use Rattle.raft_log_shared.specs.Durable.{SyncedWritesAreDurable};

use raft_log_model_laws::meaning::taken_in_turn;
use raft_log_record_batches::LogBatch;
use raft_log_world::laws::durable_contents_are_kept;
use raft_log_world::questions::batches_are_whole;
use std::collections::LinkedList;

/// Each batch whose write returned `Ok` after a sync is durable. The log has its record whole, in the order of the
/// history.
pub fn synced_writes_are_durable()
    ensures { SyncedWritesAreDurable }
{
    taken_in_turn::<LinkedList<u8>, LinkedList<u8>>();
    batches_are_whole::<LogBatch, ()>();
    durable_contents_are_kept::<LogBatch, ()>();
}
