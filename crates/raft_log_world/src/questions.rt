//! Questions of a user of a log, and the laws that answer them. A law is the contract of an empty function.
ghost use Rattle.raft_log_world.specs.Questions.{BatchesAreWhole, CopiesHoldTheLog, FailedWritesLeaveNoTrace, PurgesKeepContents, SyncedBatchesAreKept};

/// Is a synced batch ever lost? No. After a write with a sync, a sync, a purge or a close that succeeds, all contents
/// up to it stay. Only batches that are written later change them.
pub fn synced_batches_are_kept<B, C>()
    ensures { SyncedBatchesAreKept B C }
{}

/// Can half a batch be read? No. After any events the contents are the durable ones of the beginning, and then some of
/// the batches that were pending or were written. They are in order, and each is there whole.
pub fn batches_are_whole<B, C>()
    ensures { BatchesAreWhole B C }
{}

/// What does a write leave that fails? If the engine runs on, nothing: the contents are those before it. If the engine
/// fails, a later open finds the batch whole, after all others, or not at all. A crash may also lose the last few
/// unsynced batches before it.
pub fn failed_writes_leave_no_trace<B, C>()
    ensures { FailedWritesLeaveNoTrace B C }
{}

/// What does a purge keep? All contents, whether it succeeds or fails.
pub fn purges_keep_contents<B, C>()
    ensures { PurgesKeepContents B C }
{}

/// What does a copy hold? All durable contents, and the first few of the batches that weren't synced. After a crash
/// there are none, so it holds all contents. All of the copy is durable. If the copying fails, the log is as before.
pub fn copies_hold_the_log<B, C>()
    ensures { CopiesHoldTheLog B C }
{}
