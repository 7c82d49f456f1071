//! Encodes a change of a voter as a batch.
ghost use Rattle.std.specs.Prelude.{◌≡◌, ◌≤◌, OnOk, OnErr, IfErr};
ghost use Rattle.raft_log_record_base.specs.declared.errors.Error.TheVariants as errors;
ghost use Rattle.raft_log_record_batches.specs.declared.log_batch.BatchState.TheVariants.{Filling};
ghost use Rattle.raft_log_record_batches.specs.Batch.{AddsItem, Becomes};
ghost use Rattle.raft_log_record_frames.specs.ItemBatch.{command_item};
ghost use Rattle.raft_voter_outline.specs.Outlines.{ChangesEach, sent_of};
ghost use Rattle.raft_voter_records.specs.Changes.{IsFresh, StaysFresh, with_change, with_state, with_write};

use crate::stored_entries::StoredEntries;
use raft_log_record_base::{Error, Result};
use raft_log_record_batches::LogBatch;
use raft_log_record_items::Command;
use raft_voter_messages::{Request, state_bytes};
use raft_voter_outline::{Change, Outline, Write};
use std::alloc::Global;

/// The one key of a group that has a voter.
pub const VOTER_KEY: [u8; 5] = *b"voter";

/// Fills a batch with the change that an outline decided for a request of a group, whose voter has this outline. It is
/// the entries from the first that differs or is new, or a Compact, and then the new state. If the voter is retired, it
/// is a Clean. The batch must be empty.
///
/// Fails only with `Memory`, and then the batch is empty.
pub fn fill_change(
    batch: &mut LogBatch,
    alloc: Global,
    group: u64,
    outline: &Outline,
    change: &Change,
    request: &Request,
) -> Result<()>
    requires fresh { IsFresh batch.old }
    requires decided { ChangesEach outline.now.voter request.now change.now }
    ensures ok { OnOk result (Becomes (with_change batch.old group change.now request.now) batch.new) }
    ensures err { OnErr result (StaysFresh batch.old batch.new) }
    ensures errors { IfErr result (λ e. e ≡ errors.Memory) }
{
    match add_change(batch, alloc, group, outline, change, request) {
        Ok(()) => Ok(()),
        Err(error) => {
            batch.clear();
            Err(error)
        }
    }
}

/// Adds a change to a batch. If it fails, a part may be added, and the capacity for items doesn't shrink.
fn add_change(
    batch: &mut LogBatch,
    alloc: Global,
    group: u64,
    outline: &Outline,
    change: &Change,
    request: &Request,
) -> Result<()>
    requires fresh { IsFresh batch.old }
    requires decided { ChangesEach outline.now.voter request.now change.now }
    ensures ok { OnOk result (Becomes (with_change batch.old group change.now request.now) batch.new) }
    ensures err { OnErr result (batch.old.capacity ≤ batch.new.capacity) }
    ensures errors { IfErr result (λ e. e ≡ errors.Memory) }
{
    match add_write(batch, alloc, group, outline, change, request) {
        Ok(()) => add_state(batch, alloc, group, change),
        Err(error) => Err(error),
    }
}

/// Adds the change of a log. If it fails, no item changes.
fn add_write(
    batch: &mut LogBatch,
    alloc: Global,
    group: u64,
    outline: &Outline,
    change: &Change,
    request: &Request,
) -> Result<()>
    requires fresh { IsFresh batch.old }
    requires decided { ChangesEach outline.now.voter request.now change.now }
    ensures ok { OnOk result
        (Becomes (with_write batch.old group change.now.write (sent_of request.now)) batch.new) }
    ensures err { OnErr result (Becomes batch.old batch.new) }
    ensures errors { IfErr result (λ e. e ≡ errors.Memory) }
{
    let last = outline.state().last_index;
    match change.write {
        Write::StateAlone => Ok(()),
        Write::Entries { skipped: _, index } => {
            let entries = StoredEntries::new(index, change.write.brought(request));
            batch.add_entries_from(alloc, group, index, &entries)
        }
        Write::CompactTo { index } => {
            let index = index.min(last) + 1;
            add_command(batch, group, Command::Compact { index })
        }
        Write::Clean => add_command(batch, group, Command::Clean),
    }
}

/// Adds a command of a group. If it fails, nothing changes.
fn add_command(batch: &mut LogBatch, group: u64, command: Command) -> Result<()>
    requires fresh { IsFresh batch.old }
    ensures ok { OnOk result (AddsItem batch.old batch.new (command_item group command)) }
    ensures err { OnErr result (batch.new ≡ batch.old) }
    ensures errors { IfErr result (λ e. e ≡ errors.Memory) }
{
    match batch.add_command(group, command) {
        Ok(()) => Ok(()),
        Err(_) => Err(Error::Memory),
    }
}

/// Adds the new state under the key, unless the voter is retired. If it fails, no item changes.
fn add_state(batch: &mut LogBatch, alloc: Global, group: u64, change: &Change) -> Result<()>
    requires filling { batch.old.state ≡ Filling }
    ensures ok { OnOk result
        (Becomes (with_state batch.old group change.now.write change.now.state) batch.new) }
    ensures err { OnErr result (Becomes batch.old batch.new) }
    ensures errors { IfErr result (λ e. e ≡ errors.Memory) }
{
    if let Write::Clean = change.write {
        return Ok(());
    }
    match state_bytes(alloc, &change.state) {
        Ok(state) => batch.put_bytes(alloc, group, &VOTER_KEY, state),
        Err(_) => Err(Error::Memory),
    }
}
