//! Encodes a batch that is written to Rewrite.

ghost use Rattle.std.specs.Prelude.{◌≡◌, IfErr, IfOk};
ghost use Rattle.raft_log_record_batches.specs.declared.log_batch.BatchState.TheVariants.{Filling};
ghost use Rattle.raft_log_purge_copy.specs.Parts.{IsRecordMade};
ghost use Rattle.raft_log_purge_copy.specs.Refusals.{IsUnrecorded};

use raft_log_block_cache::SignedBatch;
use raft_log_record_base::Result;
use raft_log_record_batches::LogBatch;

/// Encodes the record of a batch. Fails with `Full` or `Memory`, and then drops the batch.
pub fn record_of(batch: LogBatch) -> Result<SignedBatch>
    requires { batch.state ≡ Filling }
    ensures ok { IfOk result (λ signed. IsRecordMade batch signed.batch) }
    ensures errors { IfErr result (λ error. IsUnrecorded batch error) }
{
    let mut batch = batch;
    batch.finish_populate()?;
    let signed = SignedBatch::new(batch);
    signed.encoded_len();
    Ok(signed)
}
