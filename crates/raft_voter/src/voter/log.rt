//! Lists of entries, each with its term and its bytes.
ghost use Rattle.std.specs.Prelude.{◌≡◌, ◌+◌, ◌-◌, ◌^◌, ◌<◌, ◌≤◌, ◌++◌, drop, take, length, vec_len, IfOk, OnOk, OnErr};
ghost use Rattle.raft_voter.specs.Entries.{BringsEntries, laid};
ghost use Rattle.raft_voter_outline.specs.Outlines.{CanWrite, log_written, sent_of};
ghost use Rattle.raft_voter_outline.specs.Rules.{numbered};

use crate::{Entry, Items, Memory, Request};
use raft_voter_outline::Write;
use std::alloc::Global;

/// Makes a request's write to a log, whose first entry is right above this base. Memory can run out only for a write of
/// entries. If it runs out, the log is unchanged.
pub fn write(
    log: &mut Vec<(u64, Items<u8>)>,
    base_index: u64,
    write: &Write,
    request: &Request,
) -> Result<(), Memory>
    requires { CanWrite write.now request.now (laid base_index log.old.items) }
    ensures ok { OnOk result (log.new.items
        ≡ log_written write.now (sent_of request.now) (laid base_index log.old.items)) }
    ensures err { OnErr result (log.new.items ≡ log.old.items) }
    ensures errors { OnErr result (BringsEntries write.now) }
{
    match write {
        Write::StateAlone => Ok(()),
        Write::Entries { skipped: _, index } => {
            let brought = copied(*log.allocator(), write.brought(request))?;
            replace_tail(log, (*index - base_index - 1) as usize, brought)
        }
        Write::CompactTo { index } => {
            drop_front(log, (*index - base_index) as usize);
            Ok(())
        }
        Write::Clean => {
            log.clear();
            Ok(())
        }
    }
}

/// Copies the entries.
fn copied(alloc: Global, entries: &[(u64, Items<u8>)]) -> Result<Vec<(u64, Items<u8>)>, Memory>
    ensures { IfOk result (λ copy. copy.items ≡ entries.now) }
{
    let mut copy = Vec::with_capacity(alloc, entries.len())?;
    for (term, bytes) in entries {
        copy.push((*term, Items::from_slice(alloc, bytes.as_slice())?))?;
    }
    Ok(copy)
}

/// Copies the entries and numbers them, starting at `from`.
pub fn numbered(
    alloc: Global,
    from: u64,
    entries: &[(u64, Items<u8>)],
) -> Result<Items<Entry>, Memory>
    requires { from + length entries.now < 2 ^ 64 }
    ensures { IfOk result (λ given. given ≡ numbered from entries.now) }
{
    let mut given = Vec::with_capacity(alloc, entries.len())?;
    let mut index = from;
    for (term, bytes) in entries {
        let bytes = Items::from_slice(alloc, bytes.as_slice())?;
        let term = *term;
        given.push(Entry { index, term, bytes })?;
        index += 1;
    }
    Ok(Items::from_vec(given))
}

/// Replaces the log's entries from place `at` on with these. If memory runs out, the log is unchanged.
fn replace_tail(
    log: &mut Vec<(u64, Items<u8>)>,
    at: usize,
    mut brought: Vec<(u64, Items<u8>)>,
) -> Result<(), Memory>
    ensures ok { OnOk result (log.new.items ≡ take at log.old.items ++ brought.items) }
    ensures err { OnErr result (log.new.items ≡ log.old.items) }
{
    log.reserve(brought.len())?;
    log.truncate(at);
    match log.append(&mut brought) {
        Ok(()) => Ok(()),
        Err(_refused) => unreachable!(),
    }
}

/// Removes the first entries.
fn drop_front(log: &mut Vec<(u64, Items<u8>)>, count: usize)
    requires { count ≤ vec_len log.old }
    ensures { log.new.items ≡ drop count log.old.items }
{
    drop(log.drain(..count));
}
