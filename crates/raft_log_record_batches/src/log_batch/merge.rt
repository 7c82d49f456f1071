//! Merges two batches.
ghost use Rattle.std.specs.Prelude.{◌≡◌, ◌≤◌, ◌++◌, vec_capacity, IsOk, OnOk, OnErr};
ghost use Rattle.raft_log_record_batches.specs.Batch.{FitsInRoom};
ghost use Rattle.raft_log_record_frames.specs.ItemBatch.{TakesItems};

use super::{LogBatch, MAX_ENTRIES_LEN, empty, make_room};
use raft_log_record_base::codec::or_cut_back;
use raft_log_record_frames::{LOG_BATCH_HEADER_LEN, LogItemBatch};
use raft_log_record_items::{Error, Result};
use std::alloc::AllocError;

impl LogBatch {
    ghost use Rattle.std.specs.Prelude.{◌≡◌, ◌+◌, ◌≤◌, length, IsOk, OnOk, OnErr, IfErr};
    ghost use Rattle.raft_log_record_batches.specs.declared.log_batch.BatchState.TheVariants.{Filling};
    ghost use Rattle.raft_log_record_batches.specs.Batch.{max_entries_len, max_kept_len, emptied, with_batch};
    ghost use Rattle.raft_log_record_batches.specs.Batch.{HasRoomFor};
    ghost use Rattle.raft_log_record_batches.specs.Batch.{IsButBuffer, IsRoomier};
    ghost use Rattle.raft_log_record_batches.specs.Places.{AddsBytes, bytes_in};
    ghost use Rattle.raft_log_record_batches.specs.Entries.{IsMergeRefusal};

    /// Moves the other batch's items and its entries' bytes to the end of its own, and empties the other one as `clear`
    /// does.
    ///
    /// Fails with `Full` if the entries would have more than 2,147,483,647 bytes in all, or with `Memory`. If it fails,
    /// neither batch changes, except that its own buffer's capacity may grow. It doesn't fail if there is room for the
    /// other one's items and bytes.
    pub fn merge(&mut self, rhs: &mut LogBatch) -> Result<()>
        requires own { self.old.state ≡ Filling }
        requires other { rhs.old.state ≡ Filling }
        ensures ok { OnOk result (IsRoomier (with_batch self.old rhs.old) self.new) }
        ensures bytes { OnOk result (AddsBytes self.old self.new (bytes_in rhs.old)) }
        ensures emptied { OnOk result (rhs.new ≡ emptied rhs.old) }
        ensures bounded { OnOk result (rhs.new.buffer ≤ max_kept_len) }
        ensures room { OnOk result (length self.old.entries + length rhs.old.entries ≤ max_entries_len) }
        ensures succeeds { HasRoomFor self.old rhs.old → IsOk result }
        ensures err { OnErr result (IsButBuffer self.old self.new × (rhs.new ≡ rhs.old)) }
        ensures buffer { self.old.buffer ≤ self.new.buffer }
        ensures errors { IfErr result (λ e. IsMergeRefusal e self.old.entries rhs.old.entries) }
    {
        if rhs.entries_len > MAX_ENTRIES_LEN - self.entries_len {
            return Err(Error::Full);
        }
        let first = self.items.len();
        make_room(&mut self.buf, rhs.entries_len)?;
        let header = LOG_BATCH_HEADER_LEN.min(rhs.buf.len());
        let bytes = &rhs.buf[header..];
        move_parts(&mut self.items, &mut self.buf, &mut rhs.items, bytes)?;
        self.items.lay_out_rest(first, self.entries_len as u32);
        self.entries_len += rhs.entries_len;
        empty(&mut rhs.buf);
        rhs.entries_len = 0;
        Ok(())
    }
}

/// Moves the other items to the end of these, and appends the bytes to the buffer. If it fails, only the buffer's
/// capacity changes, which doesn't shrink.
fn move_parts(
    items: &mut LogItemBatch,
    buf: &mut Vec<u8>,
    other: &mut LogItemBatch,
    bytes: &[u8],
) -> Result<(), AllocError>
    ensures items { OnOk result (TakesItems items.old items.new other.old other.new) }
    ensures bytes { OnOk result (buf.new.items ≡ buf.old.items ++ bytes.now) }
    ensures grows { vec_capacity buf.old ≤ vec_capacity buf.new }
    ensures kept { OnErr result ((items.new ≡ items.old) × (other.new ≡ other.old)) }
    ensures err { OnErr result (buf.new.items ≡ buf.old.items) }
    ensures succeeds { FitsInRoom items.old other.old buf.old bytes.now → IsOk result }
{
    let filled = buf.len();
    buf.extend_from_slice(bytes)?;
    or_cut_back(items.merge(other), buf, filled)
}
