//! Copies a group's entries in Append to Rewrite, at most 128 KiB or one entry at once.

ghost use Rattle.std.specs.Prelude.{◌≡◌, IfErr, IfOk, OnOk};
ghost use Rattle.raft_log_engine_laws.specs.EngineState.{shows};
ghost use Rattle.raft_log_memtables.specs.Tables.{IsAtRest};
ghost use Rattle.raft_log_purge_copy.specs.Rewriting.{CopiesIfAny, FailsToCopyEntries};
ghost use Rattle.raft_log_purge_copy.specs.Promised.{PromisesNoMoves};
ghost use Rattle.raft_log_purge_copy.specs.Syncing.{HandsCountOn};

use crate::copies::write_copies;
use crate::entries::{next_entries, run_batch};
use log::Log;
use raft_log_block_cache::BlockCache;
use raft_log_dual_pipes::PipeLog;
use raft_log_memtables::MemTables;
use raft_log_record_base::{FileSeq, Result};
use raft_log_record_items::RawMessage;
use std::alloc::Global;

/// Copies a group's first entries in Append, in files up to the gate, at most 128 KiB or one entry. Returns whether
/// there were any. It writes them to Rewrite as one record, where the tables locate them then.
///
/// Fails if an entry can't be read, with `Full` or `Memory`, or as a write to Rewrite does. If it fails, what the
/// tables show is unchanged.
pub fn copy_entries<P: PipeLog, L: Log>(
    alloc: Global,
    rt: &L,
    pipes: &mut P,
    tables: &mut MemTables,
    cache: &mut BlockCache,
    group: u64,
    gate: FileSeq,
    unsynced: &mut u64,
) -> Result<bool>
    ensures ok { IfOk result (λ some. CopiesIfAny group gate some
        (shows (P.shown pipes.old) tables.old cache.old) (shows (P.shown pipes.new) tables.new cache.new)) }
    ensures err { IfErr result (λ error. FailsToCopyEntries error
        (shows (P.shown pipes.old) tables.old cache.old) (shows (P.shown pipes.new) tables.new cache.new)) }
    ensures rests { IsAtRest tables.old → IsAtRest tables.new }
    ensures moves { PromisesNoMoves tables.old → PromisesNoMoves tables.new }
    ensures handed { OnOk result (HandsCountOn unsynced.old unsynced.new (P.shown pipes.old) (P.shown pipes.new)) }
{
    let entries = next_entries(alloc, tables, group, gate)?;
    if entries.is_empty() {
        return Ok(false);
    }
    let read: Vec<RawMessage> = cache.read_entries(alloc, pipes, entries.as_slice())?;
    let batch = run_batch(alloc, group, entries.as_slice(), read.as_slice())?;
    write_copies(alloc, rt, pipes, tables, batch, gate, unsynced)?;
    Ok(true)
}
