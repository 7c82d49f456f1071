//! Makes room in a batch for what is still to be added.
use super::{LogBatch, MAX_ENTRIES_LEN, make_room};
use raft_log_record_items::{Error, Result};

impl LogBatch {
    ghost use Rattle.std.specs.Prelude.{◌≡◌, ◌+◌, length, IsOk, OnOk, IfErr};
    ghost use Rattle.raft_log_record_batches.specs.declared.log_batch.BatchState.TheVariants.{Filling};
    ghost use Rattle.raft_log_record_batches.specs.Batch.{max_entries_len, HasRoomOf, IsRoomier};
    ghost use Rattle.raft_log_record_batches.specs.Entries.{IsRoomRefusal};

    /// The length of the entries in bytes.
    pub fn entries_len(&self) -> usize
        ensures { result ≡ length self.now.entries }
    {
        self.entries_len
    }

    /// Makes room for this many more items and this many more bytes of entries. Within that room, merging and adding
    /// commands ask for no memory.
    ///
    /// Fails with `Full` if the entries would have more than 2,147,483,647 bytes in all, or with `Memory`. Whether it
    /// succeeds or fails, only the capacities change, and neither shrinks. It doesn't fail if the room is already
    /// there.
    pub fn reserve(&mut self, items: usize, entries_len: usize) -> Result<()>
        requires { self.old.state ≡ Filling }
        ensures room { OnOk result (HasRoomOf self.new items entries_len) }
        ensures same { IsRoomier self.old self.new }
        ensures succeeds { HasRoomOf self.old items entries_len → IsOk result }
        ensures errors { IfErr result (λ e.
            IsRoomRefusal e max_entries_len (length self.old.entries + entries_len)) }
    {
        if entries_len > MAX_ENTRIES_LEN - self.entries_len {
            return Err(Error::Full);
        }
        self.items.reserve(items)?;
        make_room(&mut self.buf, entries_len)?;
        Ok(())
    }
}
