//! Where an entry is stored.

/// Where the bytes of an entry are: its entry block, and the offset and length in it.
///
/// It doesn't have the queue of the file, which a table knows from the entry's position among the others.
#[derive(Clone, Copy, Debug, PartialEq, Eq)]
pub struct Place {
    /// The number of the file in its queue.
    pub file: u64,
    /// The offset of the entry block in the file.
    pub offset: u64,
    /// The length of the block in bytes.
    pub len: usize,
    /// The offset of the entry in the block.
    pub entry_offset: u32,
    /// The length of the entry in bytes.
    pub entry_len: u32,
}
