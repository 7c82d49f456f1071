//! Reads the entries of a group in pieces.
ghost use Rattle.std.specs.Prelude.{◌+◌, ◌<◌, map, IfErr, IfOk};
ghost use Rattle.raft_voter_durability_laws.specs.raft_log_engine_laws.specs.Fetching.{StaysButBlock};
ghost use Rattle.raft_voter_durability_laws.specs.raft_log_engine_laws.specs.raft_log_memtable.specs.Reads.{AreIn};
ghost use Rattle.raft_log_engine_core.specs.Reads.{shows_of};
ghost use Rattle.raft_voter.specs.Laws.{AreReadAs};
ghost use Rattle.raft_voter_recovery.specs.Entries.{AreNoEntries, ReadsPiece};
ghost use Rattle.raft_voter_recovery.specs.Reading.{IsUnreadFor};

use crate::Unread;
use raft_log_dual_pipes::PipeLog;
use raft_log_engine_core::LogEngine;
use raft_log_record_items::{RawEntries, RawMessage};
use raft_voter_messages::{Entry, StoredFault, read_entry};
use std::alloc::Global;

/// The most bytes of entries that are read at once, except for one longer entry.
pub const PIECE_BYTES: usize = 1024 * 1024;

/// Entries of a group from one index on, all below another: at least one, and as many as fit in a piece. The group must
/// have these entries. Fails as `read_outlines` does.
pub fn read_piece<P: PipeLog>(
    alloc: Global,
    engine: &mut LogEngine<P>,
    group: u64,
    from: u64,
    end: u64,
) -> Result<Vec<Entry>, Unread>
    requires some { from < end }
    requires placed { AreIn ((shows_of P.shown engine.old).tables group) from end }
    ensures ok { IfOk result (λ entries.
        ReadsPiece (shows_of P.shown engine.old) group from end entries.items) }
    ensures err { IfErr result (λ cause. IsUnreadFor cause (shows_of P.shown engine.old)) }
    ensures stays { StaysButBlock (shows_of P.shown engine.old) (shows_of P.shown engine.new) }
{
    let mut messages: Vec<RawMessage> = Vec::new(alloc);
    match engine.fetch_entries_to::<RawEntries>(
        group,
        from,
        end,
        Some(PIECE_BYTES),
        &mut messages,
    ) {
        Ok(_) => read_all(alloc, group, from, messages.as_slice()),
        Err(refusal) => Err(Unread::from_refusal(refusal)),
    }
}

/// Parses these bytes as entries of the group; the first is at this index.
fn read_all(
    alloc: Global,
    group: u64,
    first: u64,
    messages: &[RawMessage],
) -> Result<Vec<Entry>, Unread>
    ensures ok { IfOk result (λ entries.
        AreReadAs first (map (λ m. m.bytes) messages.now) entries.items) }
    ensures err { IfErr result (AreNoEntries group first (map (λ m. m.bytes) messages.now)) }
{
    let mut entries = Vec::new(alloc);
    let mut index = first;
    for message in messages {
        match read_entry(alloc, message.bytes.as_slice(), index) {
            Ok(entry) => {
                let Ok(()) = entries.push(entry) else {
                    return Err(Unread::Memory);
                };
            }
            Err(StoredFault::Memory) => return Err(Unread::Memory),
            Err(_) => return Err(Unread::Foreign(group)),
        }
        index += 1;
    }
    Ok(entries)
}
