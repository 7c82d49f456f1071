//! A caller of `raft_log_dual_pipes` and of `raft_log_block_cache`: writes a batch to Append, signed for its file, and
//! makes it durable.

ghost use Rattle.std.specs.Prelude.{◌≡◌, IfOk};
ghost use Rattle.raft_log_fs.specs.Causes.{IsLater};
ghost use Rattle.raft_log_record_batches.specs.declared.log_batch.BatchState.TheVariants.{Populated};
ghost use Rattle.raft_log_block_cache.specs.Signing.{signed_for};
ghost use Rattle.raft_examples.specs.DualPipes.{SavesBatch};

use log::Log;
use raft_log_block_cache::SignedBatch;
use raft_log_dual_pipes::PipeLog;
use raft_log_record_base::{FileBlockHandle, LogQueue, Result};
use raft_log_record_batches::LogBatch;
use std::alloc::Global;

/// Writes a batch to Append, whose record is encoded already, and makes it durable. Returns its place.
pub fn save_batch<P: PipeLog, L: Log>(
    alloc: Global,
    rt: &L,
    pipes: &mut P,
    batch: LogBatch,
) -> Result<FileBlockHandle>
    requires { batch.state ≡ Populated }
    ensures ok { IfOk result (λ place. SavesBatch (signed_for batch) place
        (P.shown pipes.old) (P.shown pipes.new)) }
    ensures later { IsLater (P.shown pipes.old).disk (P.shown pipes.new).disk }
{
    let mut signed = SignedBatch::new(batch);
    let place = pipes.append(alloc, rt, LogQueue::Append, &mut signed)?;
    pipes.sync(rt, LogQueue::Append)?;
    Ok(place)
}
