//! Changes of a file's bytes, and the order in which they were made.
ghost use Rattle.std.specs.Prelude.{◌≡◌, ◌<◌, ◌^◌, length, OnOk, OnErr, IfOk};
ghost use Rattle.raft_log_fs.specs.Disk.{changed, file_limit};
ghost use Rattle.raft_log_fs.specs.Image.{end_of};

use crate::content::Content;
use crate::former::Former;
use std::alloc::{AllocError, Global};

/// A change of a file's bytes. It doesn't keep the bytes that a write puts there.
#[derive(Debug, Drop)]
pub enum Change {
    /// Overwrites bytes from an offset on, with zeros in a gap.
    Write {
        /// The offset in bytes.
        offset: usize,
        /// The bytes of a failed write that were not written: the suffix of what the caller passed.
        rest: Vec<u8>,
    },
    /// Truncates the file to a size.
    Shortening {
        /// The size in bytes.
        size: usize,
    },
    /// Extends a shorter file with zeros.
    Growth {
        /// The size in bytes to which the file is extended; a longer file stays as it is.
        size: usize,
        /// How many zeros of a failed growth were not added.
        rest: usize,
    },
}

/// A change that isn't synced, and when it was made.
#[derive(Debug, Drop)]
pub struct Stamped {
    /// How many changes of any file were made before it.
    pub stamp: u64,
    /// What is changed.
    pub change: Change,
    /// How many bytes the change wrote; 0 unless it is a write. They are in the content after it.
    pub length: usize,
    /// What the change replaced.
    pub former: Former,
}

impl Change {
    ghost use Rattle.raft_log_fs_state.specs.Changes.{change_of, bytes_in};
    ghost use Rattle.raft_log_fs_state.specs.Former.{Restores, replaced};
    ghost use Rattle.raft_log_fs_state.specs.Left.{left_front, left_as};

    // Makes the change; `bytes` are a write's. If memory runs out, nothing changes.
    pub(crate) fn carry_out(&self, bytes: &[u8], content: &mut Content) -> Result<(), AllocError>
        requires { end_of (change_of self.now bytes.now) < file_limit }
        ensures ok { OnOk result
            (content.new ≡ changed (change_of self.now bytes.now) content.old) }
        ensures err { OnErr result (content.new ≡ content.old) }
    {
        match self {
            Change::Write { offset, rest: _ } => content.write(*offset, bytes),
            Change::Shortening { size } => {
                content.shorten(*size);
                Ok(())
            }
            Change::Growth { size, rest: _ } => content.grow(*size),
        }
    }

    // Makes the first `count` bytes of a write; other changes are not made.
    pub(crate) fn carry_out_front(
        &self,
        count: usize,
        bytes: &[u8],
        content: &mut Content,
    ) -> Result<(), AllocError>
        requires { end_of (change_of self.now bytes.now) < file_limit }
        ensures { OnOk result
            (content.new ≡ left_front count (change_of self.now bytes.now) content.old) }
    {
        match self {
            Change::Write { offset, rest: _ } => {
                content.write(*offset, &bytes[..count.min(bytes.len())])
            }
            Change::Shortening { size: _ } | Change::Growth { size: _, rest: _ } => Ok(()),
        }
    }

    // Writes other bytes in place of a write's own; other changes are made whole.
    pub(crate) fn carry_out_as(
        &self,
        other: &[u8],
        bytes: &[u8],
        content: &mut Content,
    ) -> Result<(), AllocError>
        requires { end_of (change_of self.now bytes.now) < file_limit }
        ensures { OnOk result
            (content.new ≡ left_as other.now (change_of self.now bytes.now) content.old) }
    {
        match self {
            Change::Write { offset, rest: _ } => {
                content.write(*offset, &other[..bytes.len().min(other.len())])
            }
            Change::Shortening { size: _ } | Change::Growth { size: _, rest: _ } => {
                self.carry_out(bytes, content)
            }
        }
    }

    // What the change will replace in a content.
    pub(crate) fn former(
        &self,
        alloc: Global,
        bytes: &[u8],
        content: &Content,
    ) -> Result<Former, AllocError>
        ensures { IfOk result (Restores (change_of self.now bytes.now) content.now) }
    {
        let size = content.len();
        let front = content.front();
        let (start, end) = self.replaced(bytes, front.len());
        Former::of(alloc, size, front, start, end)
    }

    // Which places the change replaces in a content whose front has this size: from the first one up to the second.
    fn replaced(&self, bytes: &[u8], size: usize) -> (usize, usize)
        requires { size < 2 ^ 63 }
        ensures { result ≡ replaced (change_of self.now bytes.now) size }
    {
        match self {
            Change::Write { offset, rest: _ } => (
                size.min(*offset),
                size.min(offset.saturating_add(bytes.len())),
            ),
            Change::Shortening { size: left } => (size.min(*left), size),
            Change::Growth { size: _, rest: _ } => (size, size),
        }
    }

    // The bytes that a write of this length left in a content.
    fn bytes_in(
        &self,
        alloc: Global,
        length: usize,
        content: &Content,
    ) -> Result<Vec<u8>, AllocError>
        ensures { IfOk result (λ bytes. bytes.items ≡ bytes_in self.now length content.now) }
    {
        match self {
            Change::Write { offset, rest: _ } => content.piece(alloc, *offset, length),
            Change::Shortening { size: _ } | Change::Growth { size: _, rest: _ } => Ok(Vec::new(
                alloc,
            )),
        }
    }
}

impl Stamped {
    ghost use Rattle.raft_log_fs_state.specs.Former.{restored};
    ghost use Rattle.raft_log_fs_state.specs.Changes.{bytes_in};

    // Undoes the change, and returns the bytes that it wrote.
    pub(crate) fn take_back(
        &self,
        alloc: Global,
        content: &mut Content,
    ) -> Result<Vec<u8>, AllocError>
        ensures before { OnOk result (content.new ≡ restored self.now.former content.old) }
        ensures bytes { IfOk result (λ bytes.
            bytes.items ≡ bytes_in self.now.change self.now.length content.old) }
    {
        let bytes = self.change.bytes_in(alloc, self.length, content)?;
        self.former.put_back(content)?;
        Ok(bytes)
    }
}
