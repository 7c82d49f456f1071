//! Append is rewritten up to a file, and the files up to it leave its live range.

ghost use Rattle.std.specs.Prelude.{◌≡◌, true, IfErr, IfOk, OnErr, OnOk};
ghost use Rattle.raft_log_machine_laws.specs.Calls.Which.{InAppend};
ghost use Rattle.raft_log_fs.specs.Causes.{IsLater};
ghost use Rattle.raft_log_dual_pipes.specs.Calls.{FailsToRotateQueue, TellsFailure};
ghost use Rattle.raft_log_dual_pipes.specs.Numbers.{EndsNumbers};
ghost use Rattle.raft_log_purge_copy.specs.raft_log_engine_laws.specs.EngineState.{shows};
ghost use Rattle.raft_log_memtables.specs.Tables.{IsAtRest};
ghost use Rattle.raft_log_purge_copy.specs.Groups.{StopsAtGroups, StopsRewriting};
ghost use Rattle.raft_log_purge_copy.specs.Owed.{AddsNoMarks};
ghost use Rattle.raft_log_purge.specs.Append.{
  FailsToLoseTo,
  FailsToRewriteAppend,
  GoesOnBehindMarks,
  LosesTo,
  PassesGate,
  RewritesAll,
  RewritesAppend,
  RewritesThese,
  StopsGoingOn,
  ends_after,
  up_to,
};

use log::Log;
use raft_log_dual_pipes::PipeLog;
use raft_log_memtables::MemTables;
use raft_log_purge_copy::raft_log_block_cache::BlockCache;
use raft_log_purge_copy::{rewrite_groups, rewrite_marks};
use raft_log_record_base::{Error, FileId, FileSeq, LogQueue, Result};
use std::alloc::Global;

/// Rewrites Append up to the file `watermark`, or up to the active file if that is lower or there is no watermark:
/// - Step 1 syncs Append, rotates it if the active file is to be rewritten, and writes the owed tombstones.
/// - Step 2 rewrites all groups, and syncs Rewrite.
/// - Step 3 takes these files, and all others below the lowest one in use, out of Append's live range. It doesn't look
///   at pins.
///
/// Ends after step 1 or 2 if `exit_after_step` is that number. Afterwards the map is the same, nothing is pending, and
/// no tombstone is owed.
///
/// Fails as a sync, a rotation, `rewrite_marks`, `rewrite_groups` or `purge_to` does. If it fails, the map is kept;
/// after `Failed`, the files keep it.
pub fn rewrite_append_queue<P: PipeLog, L: Log>(
    alloc: Global,
    rt: &L,
    pipes: &mut P,
    tables: &mut MemTables,
    cache: &mut BlockCache,
    watermark: Option<FileSeq>,
    exit_after_step: Option<u64>,
) -> Result<()>
    ensures ok { OnOk result (RewritesAppend watermark exit_after_step tables.new
        (shows (P.shown pipes.old) tables.old cache.old) (shows (P.shown pipes.new) tables.new cache.new)) }
    ensures err { IfErr result (λ error. FailsToRewriteAppend error
        (shows (P.shown pipes.old) tables.old cache.old) (shows (P.shown pipes.new) tables.new cache.new)) }
    ensures rests { IsAtRest tables.old → IsAtRest tables.new }
    ensures owes { AddsNoMarks tables.old tables.new }
{
    pipes.sync(rt, LogQueue::Append)?;
    let gate = pass_gate(alloc, rt, pipes, watermark)?;
    rewrite_marks(alloc, rt, pipes, tables)?;
    go_on(alloc, rt, pipes, tables, cache, gate, exit_after_step)
}

/// Returns up to which file Append is rewritten, and rotates Append if that is the last one.
fn pass_gate<P: PipeLog, L: Log>(
    alloc: Global,
    rt: &L,
    pipes: &mut P,
    watermark: Option<FileSeq>,
) -> Result<FileSeq>
    ensures ok { IfOk result (λ gate. PassesGate watermark gate (P.shown pipes.old) (P.shown pipes.new)) }
    ensures err { IfErr result (λ error.
        FailsToRotateQueue InAppend error (P.shown pipes.old) (P.shown pipes.new)) }
    ensures range { IfErr result (λ error. EndsNumbers InAppend error (P.shown pipes.old)) }
    ensures fails { OnErr result (TellsFailure result (P.shown pipes.new)) }
    ensures later { IsLater (P.shown pipes.old).disk (P.shown pipes.new).disk }
{
    let (_first, last) = pipes.file_span(LogQueue::Append);
    let gate = up_to(watermark, last);
    if gate < last {
        return Ok(gate);
    }
    match pipes.rotate(alloc, rt, LogQueue::Append) {
        Ok(()) => Ok(gate),
        Err(error) => Err(error),
    }
}

/// The requested file, but none after the last; the last one if none was requested.
pub(crate) fn up_to(watermark: Option<FileSeq>, last: FileSeq) -> FileSeq
    ensures { result ≡ up_to watermark last }
{
    match watermark {
        Some(seq) => seq.min(last),
        None => last,
    }
}

/// Whether a call ends after a step.
fn ends_after(step: u64, exit_after_step: Option<u64>) -> bool
    ensures { result ≡ ends_after step exit_after_step }
{
    match exit_after_step {
        Some(last) => last == step,
        None => false,
    }
}

/// Steps 2 and 3, unless the call ends before.
fn go_on<P: PipeLog, L: Log>(
    alloc: Global,
    rt: &L,
    pipes: &mut P,
    tables: &mut MemTables,
    cache: &mut BlockCache,
    gate: FileSeq,
    exit_after_step: Option<u64>,
) -> Result<()>
    ensures ok { OnOk result (GoesOnBehindMarks exit_after_step gate tables.new
        (shows (P.shown pipes.old) tables.old cache.old) (shows (P.shown pipes.new) tables.new cache.new)) }
    ensures err { IfErr result (λ error. StopsGoingOn gate error
        (shows (P.shown pipes.old) tables.old cache.old) (shows (P.shown pipes.new) tables.new cache.new)) }
    ensures rests { IsAtRest tables.old → IsAtRest tables.new }
    ensures owes { AddsNoMarks tables.old tables.new }
{
    if ends_after(1, exit_after_step) {
        return Ok(());
    }
    rewrite_all(alloc, rt, pipes, tables, cache, gate)?;
    if ends_after(2, exit_after_step) {
        return Ok(());
    }
    delete_through(alloc, rt, pipes, tables, cache, gate)
}

/// Rewrites all groups up to a file, and syncs Rewrite.
fn rewrite_all<P: PipeLog, L: Log>(
    alloc: Global,
    rt: &L,
    pipes: &mut P,
    tables: &mut MemTables,
    cache: &mut BlockCache,
    gate: FileSeq,
) -> Result<()>
    ensures ok { OnOk result (RewritesAll gate
        (shows (P.shown pipes.old) tables.old cache.old) (shows (P.shown pipes.new) tables.new cache.new)) }
    ensures err { IfErr result (λ error. StopsRewriting (λ g. true) gate error
        (shows (P.shown pipes.old) tables.old cache.old) (shows (P.shown pipes.new) tables.new cache.new)) }
    ensures rests { IsAtRest tables.old → IsAtRest tables.new }
    ensures owes { AddsNoMarks tables.old tables.new }
{
    let groups = tables.known_groups()?;
    rewrite_synced(alloc, rt, pipes, tables, cache, groups.as_slice(), gate)
}

/// Rewrites these groups up to a file, and syncs Rewrite.
pub(crate) fn rewrite_synced<P: PipeLog, L: Log>(
    alloc: Global,
    rt: &L,
    pipes: &mut P,
    tables: &mut MemTables,
    cache: &mut BlockCache,
    groups: &[u64],
    gate: FileSeq,
) -> Result<()>
    ensures ok { OnOk result (RewritesThese groups.now gate
        (shows (P.shown pipes.old) tables.old cache.old) (shows (P.shown pipes.new) tables.new cache.new)) }
    ensures err { IfErr result (λ error. StopsAtGroups groups.now gate error
        (shows (P.shown pipes.old) tables.old cache.old) (shows (P.shown pipes.new) tables.new cache.new)) }
    ensures rests { IsAtRest tables.old → IsAtRest tables.new }
    ensures owes { AddsNoMarks tables.old tables.new }
{
    rewrite_groups(alloc, rt, pipes, tables, cache, groups, gate)?;
    pipes.sync(rt, LogQueue::Rewrite)
}

/// Takes the files up to the gate out of Append's live range, and all others below the lowest one in use.
///
/// Fails:
/// - with `Memory`
/// - with `Other` if the file after the gate isn't in the live range
/// - with `NumberRange` if there is no next number
/// - with `Failed` if a file call failed
fn delete_through<P: PipeLog, L: Log>(
    alloc: Global,
    rt: &L,
    pipes: &mut P,
    tables: &MemTables,
    cache: &mut BlockCache,
    gate: FileSeq,
) -> Result<()>
    ensures ok { OnOk result (LosesTo gate tables.now
        (shows (P.shown pipes.old) tables.now cache.old) (shows (P.shown pipes.new) tables.now cache.new)) }
    ensures err { IfErr result (λ error. FailsToLoseTo gate error
        (shows (P.shown pipes.old) tables.now cache.old) (shows (P.shown pipes.new) tables.now cache.new)) }
{
    let Some(past) = gate.checked_add(1) else {
        return Err(Error::NumberRange);
    };
    let (first, last) = pipes.file_span(LogQueue::Append);
    let least = tables.least_file(LogQueue::Append, last);
    let seq = past.max(least);
    if seq <= first {
        return Ok(());
    }
    cache.clear();
    match pipes.purge_to(alloc, rt, FileId::new(LogQueue::Append, seq)) {
        Ok(_) => Ok(()),
        Err(error) => Err(error),
    }
}
