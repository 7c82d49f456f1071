//! Runs: consecutive entries in a block, and entries alone in theirs after them.
ghost use Rattle.std.specs.Prelude.{◌≡◌, ◌+◌, ◌≤◌, ◌<◌, ◌^◌};
ghost use Rattle.raft_log_extents.specs.Blocks.{in_block};

use crate::Place;

/// Entries of a group that follow one another in one entry block, and then entries that came alone, each in a block of
/// its own. The list of runs keeps the whole place of each of these, as eight starts.
///
/// Entries and the starts of runs are numbered from the first ones in the list of runs. What is dropped from its front
/// changes no later number.
#[derive(Clone, Copy, Debug)]
pub struct Run {
    /// The number of its first entry.
    pub first: usize,
    /// The number of entries in the block.
    pub count: usize,
    /// The number of its first start, if it keeps starts.
    pub at: usize,
    /// The number of the file in its queue.
    pub file: u64,
    /// The offset of the entry block in the file.
    pub offset: u64,
    /// The length of the block in bytes.
    pub len: usize,
    /// The offset of the first entry in the block.
    pub start: u32,
    /// The length of each entry in the block in bytes; if they have different lengths, that of the last one.
    pub size: u32,
    /// The number of entries after them that came alone.
    pub alone: u32,
    /// If true, all entries in the block have one length, and their offsets fit into 32 bits. If false, the list of
    /// runs keeps where each of them starts.
    pub even: bool,
}

impl Run {
    ghost use Rattle.raft_log_extents.specs.Runs.{block, head, span, tail, total, width, width_of};

    /// The place of these bytes in the run's block.
    pub(crate) fn place(&self, entry_offset: u32, entry_len: u32) -> Place
        ensures { result ≡ in_block (block self.now) entry_offset entry_len }
    {
        Place {
            file: self.file,
            offset: self.offset,
            len: self.len,
            entry_offset,
            entry_len,
        }
    }

    /// The number of its entries.
    pub(crate) fn total(&self) -> usize
        requires { total self.now < 2 ^ 64 }
        ensures { result ≡ total self.now }
    {
        self.count + self.alone as usize
    }

    /// The number of starts that are kept for the first `count` entries of its block.
    pub(crate) fn block_width(&self, count: usize) -> usize
        ensures { result ≡ width_of self.now.even count }
    {
        if self.even { 0 } else { count }
    }

    /// The number of starts that are kept for it.
    pub(crate) fn width(&self) -> usize
        requires { width self.now < 2 ^ 64 }
        ensures { result ≡ width self.now }
    {
        self.block_width(self.count) + self.alone as usize * 8
    }

    /// The number of starts that are kept for the first `count` entries.
    pub(crate) fn span(&self, count: usize) -> usize
        requires { span self.now count < 2 ^ 64 }
        ensures { result ≡ span self.now count }
    {
        if count < self.count {
            self.block_width(count)
        } else {
            self.block_width(self.count) + (count - self.count) * 8
        }
    }

    /// The first `count` entries. If the last of them is in the block, it has this length.
    pub(crate) fn head(&self, count: usize, size: u32) -> Run
        requires { count ≤ total self.now }
        ensures { result ≡ head self.now count size }
    {
        let mut run = *self;
        if count <= run.count {
            run.count = count;
            run.size = size;
            run.alone = 0;
        } else {
            run.alone = (count - run.count) as u32;
        }
        run
    }

    /// The entries without the first `gone` ones. If the next one is in the block, it starts at this offset.
    pub(crate) fn tail(&self, gone: usize, start: u32) -> Run
        requires within { gone ≤ total self.now }
        requires numbers { (self.now.first + gone < 2 ^ 64) × (self.now.at + span self.now gone < 2 ^ 64) }
        ensures { result ≡ tail self.now gone start }
    {
        let mut run = *self;
        run.first += gone;
        run.at += self.span(gone);
        if gone < self.count {
            run.count -= gone;
            run.start = start;
        } else {
            run.alone -= (gone - self.count) as u32;
            run.count = 0;
        }
        run
    }

    /// This run with other numbers.
    pub(crate) fn numbered(&self, first: usize, at: usize) -> Run
        ensures { result ≡ record self.now { first = first; at = at } }
    {
        let mut run = *self;
        run.first = first;
        run.at = at;
        run
    }
}
