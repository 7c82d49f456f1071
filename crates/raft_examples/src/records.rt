//! Callers of `raft_log_record_batches`. Some encode a batch's record, take it back, or place it after its write.
//! Others make room in a batch first, so that what follows can't fail.
ghost use Rattle.std.specs.Prelude.{◌≡◌, ◌+◌, ◌<◌, ◌^◌, length, IsOk, IfOk, OnOk, OnErr};
ghost use Rattle.raft_log_record_base.specs.Files.{signature_of};
ghost use Rattle.raft_log_record_batches.specs.declared.log_batch.BatchState.TheVariants.{Filling, Signed};
ghost use Rattle.raft_log_record_batches.specs.Batch.{
  HasRoomFor,
  IsButBuffer,
  IsReadyForEach,
  IsRoomier,
  emptied,
  signed_as,
  with_batch,
  written_at,
};

use raft_log_record_batches::LogBatch;
use raft_log_record_items::{FileBlockHandle, LogFileContext, Result};

/// Encodes the record of a batch and signs it for a file. Returns the record's length in bytes, which is the same for
/// any file.
pub fn make_record(batch: &mut LogBatch, context: &LogFileContext) -> Result<usize>
    requires { batch.old.state ≡ Filling }
    ensures ok { OnOk result (IsButBuffer (signed_as (signature_of context.now) batch.old) batch.new) }
    ensures ready { IfOk result (λ len. IsReadyForEach len batch.old.items batch.old.entries) }
    ensures err { OnErr result (IsButBuffer batch.old batch.new) }
{
    let len = batch.finish_populate()?;
    batch.prepare_write(context);
    Ok(len)
}

/// The write failed: the batch may be filled again, with all that was added. It needs no memory.
pub fn take_back(batch: &mut LogBatch, context: &LogFileContext)
    requires { batch.old.state ≡ Signed (signature_of context.now) }
    ensures { batch.new ≡ record batch.old { state = Filling } }
{
    batch.unsign();
    batch.unpopulate();
}

/// The write succeeded: the items get their places.
pub fn place(batch: &mut LogBatch, context: &LogFileContext, handle: FileBlockHandle)
    requires signed { batch.old.state ≡ Signed (signature_of context.now) }
    requires place { handle.offset + 16 < 2 ^ 64 }
    ensures { batch.new ≡ written_at handle batch.old }
{
    batch.finish_write(handle);
}

/// Makes room in a batch for all that another one has, before something that can't be undone.
pub fn make_room(batch: &mut LogBatch, other: &LogBatch) -> Result<()>
    requires { batch.old.state ≡ Filling }
    ensures room { OnOk result (HasRoomFor batch.new other.now) }
    ensures same { IsRoomier batch.old batch.new }
{
    batch.reserve(other.len(), other.entries_len())
}

/// Takes over all that another batch has, for which there is room: it needs no memory and can't fail.
pub fn take_over(batch: &mut LogBatch, other: &mut LogBatch)
    requires own { batch.old.state ≡ Filling }
    requires other { other.old.state ≡ Filling }
    requires room { HasRoomFor batch.old other.old }
    ensures taken { IsRoomier (with_batch batch.old other.old) batch.new }
    ensures emptied { other.new ≡ emptied other.old }
{
    let _merged = batch.merge(other);
}
