//! A file's bytes. Zeros at the end are only counted, or allocated and waiting to be overwritten.
ghost use Rattle.std.specs.Prelude.{◌≡◌, ◌+◌, ◌-◌, ◌++◌, ◌<◌, ◌≤◌, ◌^◌, min, take, drop, length, OnOk, OnErr, IfOk};
ghost use Rattle.raft_log_fs.specs.Disk.{grown, overwritten};

use crate::bytes::{are_zeros, copy_out, grow_to, overwrite};
use std::alloc::{AllocError, Global};
use std::marker::Model;

// Each file is shorter than this.
const LIMIT: usize = 1 << 63;

/// A file's bytes, which contracts see as a list. After the last written byte all are zeros.
/// - Zeros from `grow` are not stored: only capacity is reserved for them.
/// - Zeros that were written are in memory, so that a later write over them needs no allocation.
#[derive(Debug, Drop)]
pub struct Content {
    front: Vec<u8>,
    // How many bytes there are before the zeros.
    written: usize,
    size: usize,
}

impl Model for Content {
    ghost use Rattle.std.specs.Prelude.{ℕ, ◌<◌, ◌≤◌, ◌^◌, List, vec_len};
    ghost use Rattle.raft_log_fs.specs.Disk.{grown};
    ghost use Rattle.raft_log_fs_state.specs.Zeros.{HasZerosBehind};

    ghost Value = { List ℕ };

    ghost view = { λ c. grown c.size c.front.items };

    ghost invariant = { λ c. (vec_len c.front ≤ c.size) × ((c.size < 2 ^ 63) × HasZerosBehind c.written c.front.items) };
}

impl Content {
    /// A content with these bytes, which aren't copied.
    pub fn from_vec(bytes: Vec<u8>) -> Content
        ensures { result ≡ bytes.items }
    {
        let size = bytes.len();
        Content {
            front: bytes,
            written: size,
            size,
        }
    }

    // A copy of the bytes, with capacity for the zeros at their end.
    pub(crate) fn copied(&self, alloc: Global) -> Result<Content, AllocError>
        ensures { IfOk result (λ copy. copy ≡ self.now) }
    {
        let mut front = Vec::with_capacity(alloc, self.size)?;
        front.extend_from_slice(self.front())?;
        let written = front.len();
        let size = self.size;
        Ok(Content {
            front,
            written,
            size,
        })
    }

    // How many bytes there are.
    pub(crate) fn len(&self) -> usize
        ensures all { result ≡ length self.now }
        ensures short { result < 2 ^ 63 }
    {
        self.size
    }

    // The bytes at the front; all bytes after them are zeros.
    pub(crate) fn front(&self) -> &[u8]
        ensures all { self.now ≡ grown (length self.now) result.now }
        ensures within { length result.now ≤ length self.now }
        ensures short { length result.now < 2 ^ 63 }
    {
        &self.front[..self.written]
    }

    // Copies the bytes from `offset` on until the room is full or they end. Returns how many.
    pub(crate) fn copy_out(&self, offset: usize, room: &mut [u8]) -> usize
        ensures number { result ≡ min (length room.old) (length self.now - offset) }
        ensures bytes { room.new ≡ take result (drop offset self.now) ++ drop result room.old }
    {
        let count = room.len().min(self.size.saturating_sub(offset));
        let copied = copy_out(&self.front, offset, room);
        if copied < count {
            room[copied..count].fill(0);
        }
        count
    }

    // At most `count` bytes from `offset` on; fewer if the content ends first.
    pub(crate) fn piece(
        &self,
        alloc: Global,
        offset: usize,
        count: usize,
    ) -> Result<Vec<u8>, AllocError>
        ensures { IfOk result (λ piece. piece.items ≡ take count (drop offset self.now)) }
    {
        let size = count.min(self.size.saturating_sub(offset));
        let mut piece = vec![in alloc; 0; size]?;
        self.copy_out(offset, &mut piece);
        Ok(piece)
    }

    // Overwrites bytes from `offset` on, with zeros in a gap. If memory runs out, nothing changes. Zeros written after
    // the front are not added to it.
    pub(crate) fn write(&mut self, offset: usize, over: &[u8]) -> Result<(), AllocError>
        requires { offset + length over.now < 2 ^ 64 }
        ensures ok { OnOk result (self.new ≡ overwritten offset over.now self.old) }
        ensures err { OnErr result (self.new ≡ self.old) }
    {
        let end = offset + over.len();
        if self.written <= offset && end < LIMIT && are_zeros(over) {
            return self.fill(end);
        }
        overwrite(&mut self.front, offset, over)?;
        self.written = self.written.max(end.min(self.front.len()));
        self.size = self.size.max(self.front.len());
        Ok(())
    }

    // Extends the content with zeros to a size, all of them in memory. If memory runs out, nothing changes.
    fn fill(&mut self, size: usize) -> Result<(), AllocError>
        requires { size < 2 ^ 63 }
        ensures ok { OnOk result (self.new ≡ grown size self.old) }
        ensures err { OnErr result (self.new ≡ self.old) }
    {
        grow_to(&mut self.front, size)?;
        self.size = self.size.max(size);
        Ok(())
    }

    // Reserves capacity for a content of this size.
    pub(crate) fn reserve(&mut self, size: usize) -> Result<(), AllocError>
        ensures { self.new ≡ self.old }
    {
        self.front.reserve(size.saturating_sub(self.front.len()))
    }

    // Truncates the content to a size.
    pub(crate) fn shorten(&mut self, size: usize)
        ensures { self.new ≡ take size self.old }
    {
        self.front.truncate(size);
        self.written = self.written.min(size);
        self.size = self.size.min(size);
    }

    // Extends the content with zeros to a size, and reserves capacity for them. If memory runs out, nothing changes.
    pub(crate) fn grow(&mut self, size: usize) -> Result<(), AllocError>
        requires { size < 2 ^ 63 }
        ensures ok { OnOk result (self.new ≡ grown size self.old) }
        ensures err { OnErr result (self.new ≡ self.old) }
    {
        if size <= self.size {
            return Ok(());
        }
        self.front.reserve(size - self.front.len())?;
        self.size = size;
        Ok(())
    }
}
