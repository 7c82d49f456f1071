//! A batch whose record is encoded and signed.

ghost use Rattle.std.specs.Prelude.{◌≡◌, None, length};
ghost use Rattle.raft_log_record_base.specs.declared.pipe_log.LogFileContext.{LogFileContext};
ghost use Rattle.raft_log_record_items.specs.Placed.{entries_len, laid_out};
ghost use Rattle.raft_log_record_batches.specs.declared.log_batch.BatchState.TheVariants.{Populated, Signed};
ghost use Rattle.raft_log_record_batches.specs.Batch.{batch_bytes, signed_as, signed_bytes};

use raft_log_file_pipe::ReactiveBytes;
use raft_log_record_base::{FileId, LogFileContext, LogQueue, Version};
use raft_log_record_batches::LogBatch;

/// A batch whose record is encoded and signed, at first for no file.
#[derive(Drop)]
pub struct SignedBatch {
    batch: LogBatch,
    signature: Option<u32>,
    ghost signed: { batch.state ≡ Signed signature },
}

impl SignedBatch {
    ghost use Rattle.raft_log_block_cache.specs.Signing.{SaysItself, signed_for};

    /// Takes a batch whose record is encoded; it is signed for no file yet.
    pub fn new(batch: LogBatch) -> SignedBatch
        requires { batch.state ≡ Populated }
        ensures { result.batch ≡ signed_as None batch }
    {
        let mut batch = batch;
        let no_file = FileId::new(LogQueue::Append, 0);
        batch.prepare_write(&LogFileContext::new(no_file, Version::V1));
        SignedBatch {
            batch,
            signature: None,
        }
    }

    /// Returns the batch, as it is signed.
    pub fn into_batch(self) -> LogBatch
        ensures batch { result ≡ self.batch }
        ensures signed { result.state ≡ Signed self.signature }
    {
        self.batch
    }

    /// The length of its record in bytes, which is the same for any file. Unless the batch is empty, the record
    /// contains its items and the bytes of their entries, one after another.
    pub fn encoded_len(&self) -> usize
        ensures len { (context : LogFileContext) → length (signed_for self.now.batch context) ≡ result }
        ensures says { SaysItself (signed_for self.now.batch) self.now.batch }
        ensures laid { laid_out 0 self.now.batch.items ≡ self.now.batch.items }
        ensures adds { entries_len self.now.batch.items ≡ length self.now.batch.entries }
    {
        self.batch.encoded_len()
    }
}

impl ReactiveBytes for SignedBatch {
    ghost use Rattle.raft_log_block_cache.specs.Signing.{signed_for};

    type Content = LogBatch;

    ghost said = { λ signed. record signed.batch { state = Populated } };

    ghost bytes = { λ signed. signed_bytes signed.batch };

    ghost signed = { λ signed. signed_for signed.batch };

    fn sign(&mut self, context: &LogFileContext) {
        self.batch.prepare_write(context);
        self.signature = context.get_signature();
    }

    fn as_bytes(&self) -> &[u8] {
        self.batch.encoded_bytes()
    }
}
