//! What a change of a file's bytes replaced.
ghost use Rattle.std.specs.Prelude.{◌≡◌, ◌+◌, ◌-◌, ◌<◌, ◌≤◌, ◌^◌, vec_len, length, OnOk, IfOk, take, drop};

use crate::content::Content;
use std::alloc::{AllocError, Global};

/// What a change overwrote or truncated. It gives the content before the change from the content after it. No byte that
/// is still in the content is kept twice, and no zero at its end.
#[derive(Debug, Drop)]
pub struct Former {
    /// How many bytes the content had.
    pub size: usize,
    /// How many of them come before the zeros at its end.
    pub front: usize,
    /// The offset of the first byte that is kept here.
    pub place: usize,
    /// The bytes from there on that were overwritten or truncated.
    pub bytes: Vec<u8>,
    ghost inside: { place + vec_len bytes ≤ size },
    ghost short: { size < 2 ^ 63 },
}

impl Former {
    ghost use Rattle.raft_log_fs_state.specs.Former.{restored, Keeps};

    // Keeps the bytes from `start` up to `end` of a content of `size` bytes that begins with `front`.
    pub(crate) fn of(
        alloc: Global,
        size: usize,
        front: &[u8],
        start: usize,
        end: usize,
    ) -> Result<Former, AllocError>
        requires ordered { start ≤ end }
        requires within { end ≤ length front.now }
        requires behind { length front.now ≤ size }
        requires short { size < 2 ^ 63 }
        ensures { IfOk result (Keeps size front.now start end) }
    {
        Ok(Former {
            size,
            front: front.len(),
            place: start,
            bytes: Vec::from_slice(alloc, &front[start..end])?,
        })
    }

    // Restores the content before the change.
    pub(crate) fn put_back(&self, content: &mut Content) -> Result<(), AllocError>
        ensures { OnOk result (content.new ≡ restored self.now content.old) }
    {
        content.shorten(self.front);
        content.write(self.place, &self.bytes)?;
        content.grow(self.size)
    }
}
