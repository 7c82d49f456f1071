//! Writes a record to Rewrite.

ghost use Rattle.std.specs.Prelude.{◌≡◌, IfErr, IfOk, OnOk};
ghost use Rattle.raft_log_record_batches.specs.declared.log_batch.BatchState.TheVariants.{Filling};
ghost use Rattle.raft_log_purge_copy.specs.Records.{FailsToWriteRecord, WritesToRewrite};
ghost use Rattle.raft_log_purge_copy.specs.Syncing.{WritesOne};

use crate::sync_if_due;
use log::Log;
use raft_log_block_cache::SignedBatch;
use raft_log_dual_pipes::PipeLog;
use raft_log_record_base::{FileBlockHandle, LogQueue, Result};
use raft_log_record_batches::LogBatch;
use std::alloc::Global;

/// A record that was written: its place, and its batch, whose items have their places.
#[derive(Drop)]
pub struct WrittenRecord {
    /// The place.
    pub block: FileBlockHandle,
    /// The batch.
    pub batch: LogBatch,
}

/// Writes the record of a batch to Rewrite. Syncs Rewrite first if 512 KiB or more are unsynced.
///
/// Fails with `Full` or `Memory` before anything is done, with `Failed` if the sync fails, or as the write does.
pub fn write_record<P: PipeLog, L: Log>(
    alloc: Global,
    rt: &L,
    pipes: &mut P,
    batch: LogBatch,
    unsynced: &mut u64,
) -> Result<WrittenRecord>
    requires { batch.state ≡ Filling }
    ensures ok { IfOk result (λ r. WritesToRewrite batch r.block r.batch.items
        (P.shown pipes.old) (P.shown pipes.new)) }
    ensures err { IfErr result (λ error. FailsToWriteRecord batch error (P.shown pipes.old) (P.shown pipes.new)) }
    ensures counted { OnOk result (WritesOne batch unsynced.old unsynced.new (P.shown pipes.old) (P.shown pipes.new)) }
{
    let mut batch = batch;
    let len = batch.finish_populate()?;
    sync_if_due(rt, pipes, unsynced)?;
    let mut signed = SignedBatch::new(batch);
    signed.encoded_len();
    let block = pipes.append(alloc, rt, LogQueue::Rewrite, &mut signed)?;
    let mut batch = signed.into_batch();
    batch.finish_write(block);
    *unsynced = unsynced.saturating_add(len as u64);
    Ok(WrittenRecord { block, batch })
}
