//! Batches of the engine.
ghost use Rattle.std.specs.Prelude.{◌≡◌, map, IfOk, OnOk};
ghost use Rattle.raft_log_record_batches.specs.declared.log_batch.BatchState.TheVariants.{Filling};
ghost use Rattle.raft_log_record_batches.specs.Entries.{slices_bytes};
ghost use Rattle.raft_log_engine.specs.raft_log_engine_laws.specs.EngineState.{said_of};
ghost use Rattle.raft_log_judge.specs.Changes.{says_of};
ghost use Rattle.raftlog.specs.Batches.{AddsChange};

use raft_lists::Bytes;
use raft_log_engine::{Command, Error, LogBatch, Result};
use raft_log_judge::{Change, ChangeKind};
use raft_log_record_batches::EntrySlices;
use std::alloc::{AllocError, Global};

/// Returns a batch of the engine with these changes. Fails:
/// - with `InvalidArgument` if a change adds no entries or one at index 2^64 - 1, or if a key begins with two
///   underscores
/// - with `Full` if the entries have more than 2,147,483,647 bytes
/// - with `Memory`
pub fn log_batch(alloc: Global, changes: &[Change]) -> Result<LogBatch>
    ensures { IfOk result (λ batch. said_of batch ≡ says_of changes.now) }
{
    let mut batch = LogBatch::default(alloc)?;
    for change in changes {
        add_change(alloc, &mut batch, change)?;
    }
    Ok(batch)
}

/// Adds a change to a batch.
fn add_change(alloc: Global, batch: &mut LogBatch, change: &Change) -> Result<()>
    requires { batch.old.state ≡ Filling }
    ensures { OnOk result (AddsChange batch.old batch.new change.now) }
{
    let group = change.group;
    match &change.kind {
        ChangeKind::Entries { first, entries } => {
            add_entries(alloc, batch, group, *first, entries.as_slice())
        }
        ChangeKind::Clean => add_clean(batch, group),
        ChangeKind::Compact { index } => add_compact(batch, group, *index),
        ChangeKind::Put { key, value } => {
            put(alloc, batch, group, key.as_slice(), value.as_slice())
        }
        ChangeKind::Delete { key } => delete(alloc, batch, group, key.as_slice()),
    }
}

/// Adds entries of a group, from an index on. Fails if there are none.
fn add_entries(
    alloc: Global,
    batch: &mut LogBatch,
    group: u64,
    first: u64,
    entries: &[Bytes],
) -> Result<()>
    requires { batch.old.state ≡ Filling }
    ensures { OnOk result (AddsChange batch.old batch.new
        (record { group = group; kind = ChangeKind.Entries first entries.now })) }
{
    let slices = slices_of(alloc, entries)?;
    if slices.is_empty() {
        return Err(Error::InvalidArgument(format!(in alloc; "no entries")?));
    }
    batch.add_entries_from(
        alloc,
        group,
        first,
        &EntrySlices {
            slices: slices.as_slice(),
        },
    )?;
    Ok(())
}

/// Adds the deletion of a group.
fn add_clean(batch: &mut LogBatch, group: u64) -> Result<()>
    requires { batch.old.state ≡ Filling }
    ensures { OnOk result (AddsChange batch.old batch.new (record { group = group; kind = ChangeKind.Clean })) }
{
    batch.add_command(group, Command::Clean)?;
    Ok(())
}

/// Adds the deletion of a group's entries below an index.
fn add_compact(batch: &mut LogBatch, group: u64, index: u64) -> Result<()>
    requires { batch.old.state ≡ Filling }
    ensures { OnOk result (AddsChange batch.old batch.new
        (record { group = group; kind = ChangeKind.Compact index })) }
{
    batch.add_command(group, Command::Compact { index })?;
    Ok(())
}

/// Adds a key's value. Fails if the key begins with two underscores.
fn put(alloc: Global, batch: &mut LogBatch, group: u64, key: &[u8], value: &[u8]) -> Result<()>
    requires { batch.old.state ≡ Filling }
    ensures { OnOk result (AddsChange batch.old batch.new
        (record { group = group; kind = ChangeKind.Put key.now value.now })) }
{
    batch.put(alloc, group, key, value)?;
    Ok(())
}

/// Adds the deletion of a key. Fails if the key begins with two underscores.
fn delete(alloc: Global, batch: &mut LogBatch, group: u64, key: &[u8]) -> Result<()>
    requires { batch.old.state ≡ Filling }
    ensures { OnOk result (AddsChange batch.old batch.new
        (record { group = group; kind = ChangeKind.Delete key.now })) }
{
    batch.delete(alloc, group, key)?;
    Ok(())
}

/// Returns the bytes of each entry.
fn slices_of<'a>(alloc: Global, entries: &'a [Bytes]) -> Result<Vec<&'a [u8]>, AllocError>
    ensures { IfOk result (λ slices. slices_bytes slices.items ≡ entries.now) }
{
    let mut slices = Vec::with_capacity(alloc, entries.len())?;
    for entry in entries {
        slices.push(entry.as_slice())?;
    }
    Ok(slices)
}
