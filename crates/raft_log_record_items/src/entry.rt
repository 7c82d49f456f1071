//! An entry of a group: its index, and where its bytes are.
ghost use Rattle.std.specs.Prelude.{◌≡◌};
ghost use Rattle.raft_log_record_items.specs.Run.{unplaced_entry};

use crate::compression::CompressionType;
use raft_log_record_base::FileBlockHandle;

/// One entry of a group: its index, and where its bytes are.
#[derive(Clone, Copy, Debug, PartialEq, Eq)]
pub struct EntryIndex {
    /// The entry's number in the group's log.
    pub index: u64,
    /// The place of the entry block that holds the entry, once it is written.
    pub entries: Option<FileBlockHandle>,
    /// How the block is compressed.
    pub compression_type: CompressionType,
    /// The offset of the entry's first byte in the entry block.
    pub entry_offset: u32,
    /// The number of the entry's bytes.
    pub entry_len: u32,
}

impl EntryIndex {
    /// An entry of this index and length without a place.
    pub fn unplaced(index: u64, entry_len: u32) -> EntryIndex
        ensures { result ≡ unplaced_entry index entry_len }
    {
        EntryIndex {
            index,
            entries: None,
            compression_type: CompressionType::None,
            entry_offset: 0,
            entry_len,
        }
    }
}

impl Default for EntryIndex {
    ghost is_default = { λ e. e ≡ unplaced_entry 0 0 };

    fn default() -> EntryIndex {
        EntryIndex::unplaced(0, 0)
    }
}
