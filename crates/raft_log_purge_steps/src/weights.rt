//! How many bytes a step of a purge would copy of groups, and for how many groups a budget pays.

ghost use Rattle.std.specs.Prelude.{◌≡◌, ◌+◌, ◌-◌, ◌^◌, min, IfOk};
ghost use Rattle.raft_log_record_items.specs.Placed.{run_len};
ghost use Rattle.raft_log_memtable_index.specs.Listing.{ListsAll, appended_values};
ghost use Rattle.raft_log_memtable.specs.Reads.{appended_entries};
ghost use Rattle.raft_log_memtables.specs.Tables.{shown_of};
ghost use Rattle.raft_log_purge_steps.specs.Weights.{IsAffordable, Weighs, copied_entries, copied_values, pairs_len};

use raft_log_memtables::MemTables;
use raft_log_purge_copy::pieces::{rewritten_entries, rewritten_keys};
use raft_log_record_base::FileSeq;
use raft_log_record_items::{Bytes, EntryIndex};
use std::alloc::{AllocError, Global};

/// For how many of these groups, from the first on, a budget of bytes pays: the fewest that weigh as much as the
/// budget, at least one, or all. With a gate, a group weighs what it has in files of Append up to the gate. Without
/// one, it weighs what it has in Rewrite.
pub fn affordable(
    alloc: Global,
    tables: &MemTables,
    groups: &[u64],
    gate: Option<FileSeq>,
    budget: u64,
) -> Result<usize, AllocError>
    ensures { IfOk result (IsAffordable gate budget (shown_of tables.now) groups.now) }
{
    let mut spent: u64 = 0;
    let mut count: usize = 0;
    for group in groups {
        spent = spent.saturating_add(weight(alloc, tables, *group, gate)?);
        count += 1;
        if budget <= spent {
            return Ok(count);
        }
    }
    Ok(count)
}

/// How many bytes a step would copy of a group: its entries, keys and values in files of Append up to the gate, or in
/// Rewrite without a gate. At most 2^64 - 1.
fn weight(
    alloc: Global,
    tables: &MemTables,
    group: u64,
    gate: Option<FileSeq>,
) -> Result<u64, AllocError>
    ensures { IfOk result (Weighs gate (shown_of tables.now group)) }
{
    let entries = copied_entries(alloc, tables, group, gate)?;
    let pairs = copied_keys(alloc, tables, group, gate)?;
    Ok(bytes_in(entries.as_slice(), pairs.as_slice()))
}

/// The entries that a step copies of a group.
fn copied_entries(
    alloc: Global,
    tables: &MemTables,
    group: u64,
    gate: Option<FileSeq>,
) -> Result<Vec<EntryIndex>, AllocError>
    ensures { IfOk result (λ entries. entries.items ≡ copied_entries gate (shown_of tables.now group)) }
{
    match gate {
        Some(gate) => appended_entries(alloc, tables, group, gate),
        None => rewritten_entries(alloc, tables, group),
    }
}

/// The keys that a step copies of a group, with their values.
fn copied_keys(
    alloc: Global,
    tables: &MemTables,
    group: u64,
    gate: Option<FileSeq>,
) -> Result<Vec<(Bytes, Bytes)>, AllocError>
    ensures { IfOk result (λ pairs. ListsAll (copied_values gate (shown_of tables.now group)) pairs.items) }
{
    match gate {
        Some(gate) => appended_keys(alloc, tables, group, gate),
        None => rewritten_keys(alloc, tables, group),
    }
}

/// The entries that a group has in files of Append up to the gate.
fn appended_entries(
    alloc: Global,
    tables: &MemTables,
    group: u64,
    gate: FileSeq,
) -> Result<Vec<EntryIndex>, AllocError>
    ensures { IfOk result (λ entries. entries.items ≡ appended_entries (shown_of tables.now group) gate) }
{
    let mut entries = Vec::new(alloc);
    if let Some(table) = tables.known_table(group) {
        table.fetch_entry_indexes_before(gate, &mut entries)?;
    }
    Ok(entries)
}

/// The keys that a group has in files of Append up to the gate, with their values.
fn appended_keys(
    alloc: Global,
    tables: &MemTables,
    group: u64,
    gate: FileSeq,
) -> Result<Vec<(Bytes, Bytes)>, AllocError>
    ensures { IfOk result (λ pairs. ListsAll (appended_values gate (shown_of tables.now group)) pairs.items) }
{
    let mut pairs = Vec::new(alloc);
    if let Some(table) = tables.known_table(group) {
        table.fetch_kvs_before(gate, &mut pairs)?;
    }
    Ok(pairs)
}

/// How many bytes these entries, keys and values have, at most 2^64 - 1.
fn bytes_in(entries: &[EntryIndex], pairs: &[(Bytes, Bytes)]) -> u64
    ensures { result ≡ min (run_len entries.now + pairs_len pairs.now) (2 ^ 64 - 1) }
{
    entries_len(entries).saturating_add(pairs_len(pairs))
}

/// How many bytes these entries have, at most 2^64 - 1.
fn entries_len(entries: &[EntryIndex]) -> u64
    ensures { result ≡ min (run_len entries.now) (2 ^ 64 - 1) }
{
    let mut len: u64 = 0;
    for entry in entries {
        len = len.saturating_add(entry.entry_len as u64);
    }
    len
}

/// How many bytes these keys and values have, at most 2^64 - 1.
fn pairs_len(pairs: &[(Bytes, Bytes)]) -> u64
    ensures { result ≡ min (pairs_len pairs.now) (2 ^ 64 - 1) }
{
    let mut len: u64 = 0;
    for pair in pairs {
        let key = pair.0.len() as u64;
        len = len.saturating_add(key).saturating_add(pair.1.len() as u64);
    }
    len
}
