//! Parses entries that are read back.
ghost use Rattle.std.specs.Prelude.{map, IfOk};
ghost use Rattle.raft_voter.specs.Laws.{AreReadAs};

use raft_log_record_items::RawMessage;
use raft_voter_messages::{Entry, Items, Memory, read_entry};
use std::alloc::Global;

/// Parses these bytes as entries; the first is at this index. Fails if memory runs out, or if bytes aren't an entry,
/// which no store writes.
pub fn read_entries(
    alloc: Global,
    first: u64,
    messages: &[RawMessage],
) -> Result<Items<Entry>, Memory>
    ensures { IfOk result (AreReadAs first (map (λ m. m.bytes) messages.now)) }
{
    let mut entries = Items::new(alloc);
    let mut index = first;
    for message in messages {
        let Ok(entry) = read_entry(alloc, message.bytes.as_slice(), index) else {
            return Err(Memory);
        };
        entries.push(entry)?;
        index += 1;
    }
    Ok(entries)
}
