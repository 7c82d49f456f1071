//! The places of entries that are written.
ghost use Rattle.std.specs.Prelude.{◌≡◌};
ghost use Rattle.raft_log_extents.specs.Entries.{place_of, entry_of};

use crate::Place;
use raft_log_record_base::{FileBlockHandle, FileId, LogQueue};
use raft_log_record_items::{CompressionType, EntryIndex};

/// The place of a written entry. For an entry that isn't written, the file and the block's offset and length are 0.
pub fn place_of(entry: &EntryIndex) -> Place
    ensures { result ≡ place_of entry.now }
{
    let (file, offset, len) = match entry.entries {
        Some(block) => (block.id.seq, block.offset, block.len),
        None => (0, 0, 0),
    };
    Place {
        file,
        offset,
        len,
        entry_offset: entry.entry_offset,
        entry_len: entry.entry_len,
    }
}

/// The entry with this index at this place, in a file of this queue. Its compression type is `None`.
pub fn entry_of(queue: LogQueue, index: u64, place: Place) -> EntryIndex
    ensures { result ≡ entry_of queue index place }
{
    let id = FileId::new(queue, place.file);
    EntryIndex {
        index,
        entries: Some(FileBlockHandle {
            id,
            offset: place.offset,
            len: place.len,
        }),
        compression_type: CompressionType::None,
        entry_offset: place.entry_offset,
        entry_len: place.entry_len,
    }
}
