//! Where consecutive entries of a block start and end.
ghost use Rattle.std.specs.Prelude.{◌≡◌, ◌+◌, ◌<◌, length, slice_index};

/// Where consecutive entries of a block start and end: each ends where the next one starts. All offsets are counted
/// from the start of the block.
#[derive(Clone, Copy, Debug)]
pub enum Bounds<'a> {
    /// Where the first entry starts, the length of each in bytes, and the number of entries.
    Even { start: u64, size: u32, count: usize },
    /// Where each entry starts, and where the last one ends.
    Uneven { starts: &'a [u32], end: u64 },
}

impl<'a> Bounds<'a> {
    ghost use Rattle.raft_log_extents.specs.Bounds.{bounds_of, AreShort};

    /// The number of entries.
    pub fn len(&self) -> usize
        ensures { length (bounds_of self.now) ≡ result + 1 }
    {
        match self {
            Bounds::Even { count, .. } => *count,
            Bounds::Uneven { starts, .. } => starts.len(),
        }
    }

    /// Where the entry of this number starts and ends. It must be there.
    #[inline]
    pub fn at(&self, number: usize) -> (u64, u64)
        requires there { number + 1 < length (bounds_of self.now) }
        requires short { AreShort self.now }
        ensures start { result.0 ≡ slice_index (bounds_of self.now) number }
        ensures end { result.1 ≡ slice_index (bounds_of self.now) (number + 1) }
    {
        match self {
            Bounds::Even { start, size, .. } => {
                let size = *size as u64;
                let start = *start + number as u64 * size;
                (start, start + size)
            }
            Bounds::Uneven { starts, end } => {
                let next = number + 1;
                let end = if next < starts.len() {
                    starts[next] as u64
                } else {
                    *end
                };
                (starts[number] as u64, end)
            }
        }
    }
}
