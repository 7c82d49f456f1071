//! What was written stays where it was written, and is read back from there.

ghost use Rattle.raft_log_dual_pipes.specs.Queues.{layout_at};
ghost use Rattle.raft_log_machine_laws.specs.Calls.{Which};
ghost use Rattle.raft_log_block_cache.specs.Stored.{CallsKeepBytes, CallsKeepLog, StoredBlockIsRead, StoredEntriesStay};
ghost use Rattle.raft_log_block_cache.specs.Written.{AnyFileMayTakeIt, TakenEntriesAreStored, WrittenEntriesAreStored};

use raft_log_dual_pipes::queues::LogQueues;

/// An append, the truncation of a failed append, a rotation and a sync keep what was written to the queue's files. So
/// do several such steps.
pub fn calls_keep_bytes<R>()
    ensures { CallsKeepBytes R }
{}

/// A call on one of the log's queues that keeps the bytes written to that queue's files keeps those of the whole log.
pub fn calls_keep_log<R>()
    ensures { CallsKeepLog R }
{}

/// If the log's bytes are kept, the entries that tables show stay in it at their places. The tables mean the same
/// contents.
pub fn stored_entries_stay<R>()
    ensures { StoredEntriesStay R }
{}

/// A read of a block of a running pipe's queue that succeeds returns the bytes that were written there.
pub fn stored_block_is_read<G: LogQueues>()
    ensures { (log : G) (which : Which) → StoredBlockIsRead (layout_at which (G.queues log)) }
{}

/// If the last record of Append is a batch's, its entries are in the log at their places, with the batch's bytes. The
/// batch's entry block must be whole.
pub fn written_entries_are_stored<R>()
    ensures { WrittenEntriesAreStored R }
{}

/// After tables apply a batch whose entries are in Append, all entries that they show are in the log. The earlier ones
/// must have been, and the batch must be able to follow what the tables show.
pub fn taken_entries_are_stored<R>()
    ensures { TakenEntriesAreStored R }
{}

/// If a batch may follow what the tables show, the view can grow by it, whichever file of Append its record is written
/// to. The tables' entries must be in the log.
pub fn any_file_may_take_it<R>()
    ensures { AnyFileMayTakeIt R }
{}
