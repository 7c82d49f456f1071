//! Append is purged if its files are past their threshold: the caller is asked to compact some groups, others are
//! rewritten, and then files leave Append's live range.

ghost use Rattle.std.specs.Prelude.{◌≡◌, ◌==◌, false, IfErr, IfOk, IsSome, OnErr, OnOk};
ghost use Rattle.std.specs.List.{list_any};
ghost use Rattle.raft_log_purge_copy.specs.raft_log_engine_laws.specs.EngineState.{shows};
ghost use Rattle.raft_log_memtables.specs.Owing.{AreOwed};
ghost use Rattle.raft_log_memtables.specs.Tables.{IsAtRest};
ghost use Rattle.raft_log_memtables.specs.Walking.{Stand};
ghost use Rattle.raft_log_purge_copy.specs.Owed.{AddsNoMarks};
ghost use Rattle.raft_log_purge_policy.specs.Picking.{count_of};
ghost use Rattle.raft_log_purge_policy.specs.Surveying.{SurveysIfTold};
ghost use Rattle.raft_log_purge_policy.specs.Watermarks.{TakesAppend};
ghost use Rattle.raft_log_purge.specs.Standing.{StandIfTold};
ghost use Rattle.raft_log_purge.specs.Expired.{
  DeletesFirst,
  FailsToLoseBelow,
  FailsToPurgeAppend,
  LosesBelow,
  PicksGroups,
  PurgesAppend,
  PurgesIfPast,
  RewritesPicked,
};

use crate::append::{rewrite_synced, up_to};
use log::Log;
use raft_log_dual_pipes::PipeLog;
use raft_log_memtables::MemTables;
use raft_log_purge_copy::raft_log_block_cache::BlockCache;
use raft_log_purge_copy::write_tombstones;
use raft_log_purge_policy::{
    GroupLists, Rounds, Survey, Thresholds, Watermarks, answered_groups, append_watermarks,
    survey_groups, survey_unless_known, takes_append,
};
use raft_log_record_base::{FileId, FileSeq, LogQueue, Result};
use raft_log_record_items::LogItem;
use std::alloc::{AllocError, Global};

/// What a purge returns, and what it counted on its way.
#[derive(Drop)]
pub struct Purged {
    /// The groups that it returns to its caller, from the least up.
    pub answered: Vec<u64>,
    /// How many entries and values are live in Rewrite after it, if it counted them.
    pub standing: Option<u64>,
}

/// The groups that a purge of Append picks, from the least up, and the tombstones that it writes.
#[derive(Drop)]
pub struct PickedGroups {
    /// The groups that the purge returns: it asks them to be compacted, or they have many entries in Rewrite.
    pub answered: Vec<u64>,
    /// The groups that the purge rewrites itself.
    pub rewritten: Vec<u64>,
    /// The tombstones owed to Rewrite.
    pub marks: Vec<LogItem>,
    /// In how many purges in a row each group was asked, including this one.
    pub rounds: Rounds,
}

/// Purges Append if it is past its threshold, else changes nothing.
/// - If no tombstone is owed, deletes files before it writes anything, so that it frees space on a full disk: syncs
///   Rewrite, and takes the files below the lowest one in use out of Append's live range.
/// - Writes the owed tombstones.
/// - Rewrites the groups that the rules pick, up to the watermark, and syncs Rewrite.
/// - Takes the files below the lowest one in use out of Append's live range. The active file stays, and so does each
///   file from the first pinned one on.
///
/// If Append is purged, returns the groups that the caller is asked to compact, and counts the round. If Rewrite was
/// rewritten before (`restated`), also returns the groups that have many entries there, in any case. The groups are in
/// rising order.
///
/// `known` is a survey of these tables and rounds, or `None`. If it is given, and Rewrite wasn't rewritten, it spares a
/// walk over the groups.
///
/// Fails with `Memory` before anything is done, or as `write_tombstones`, `rewrite_groups`, a sync or `purge_to` does.
/// If it fails, the purge isn't counted among those in a row that asked the caller to compact a group. Whether it
/// succeeds or fails, the map is kept if nothing of Append was pending; after `Failed`, the files keep it.
pub fn purge_append<P: PipeLog, L: Log>(
    alloc: Global,
    rt: &L,
    thresholds: &Thresholds,
    pipes: &mut P,
    tables: &mut MemTables,
    cache: &mut BlockCache,
    rounds: &mut Rounds,
    held: Option<FileSeq>,
    restated: bool,
    known: Option<Survey>,
) -> Result<Purged>
    requires { restated ≡ false → SurveysIfTold (count_of rounds.old) tables.old known }
    ensures ok { IfOk result (λ purged. PurgesIfPast thresholds.now held restated tables.old tables.new
        rounds.old rounds.new purged.answered.items
        (shows (P.shown pipes.old) tables.old cache.old) (shows (P.shown pipes.new) tables.new cache.new)) }
    ensures err { IfErr result (λ error. FailsToPurgeAppend error
        (shows (P.shown pipes.old) tables.old cache.old) (shows (P.shown pipes.new) tables.new cache.new)) }
    ensures standing { IfOk result (λ purged. StandIfTold purged.standing tables.new) }
    ensures uncounted { OnErr result (rounds.new ≡ rounds.old) }
    ensures rests { IsAtRest tables.old → IsAtRest tables.new }
    ensures owes { AddsNoMarks tables.old tables.new }
{
    if !takes_append(thresholds, pipes) {
        let answered = answered_groups(alloc, tables, None, restated)?;
        return Ok(Purged {
            answered,
            standing: None,
        });
    }
    purge_by_rules(
        alloc, rt, pipes, tables, cache, rounds, held, restated, known,
    )
}

/// If Append is past its threshold, what a purge of it has to know of all groups, unless Rewrite is compacted before.
/// `None` also if memory ran out.
pub(crate) fn survey_if_past<P: PipeLog>(
    alloc: Global,
    thresholds: &Thresholds,
    pipes: &P,
    tables: &MemTables,
    rounds: &Rounds,
) -> Option<Survey>
    ensures past { IsSome result → TakesAppend thresholds.now (P.shown pipes.now) }
    ensures seen { SurveysIfTold (count_of rounds.now) tables.now result }
{
    if takes_append(thresholds, pipes) {
        let watermarks = append_watermarks(pipes);
        survey_groups(alloc, tables, &watermarks, rounds, false).ok()
    } else {
        None
    }
}

/// Purges Append, whatever its size is.
fn purge_by_rules<P: PipeLog, L: Log>(
    alloc: Global,
    rt: &L,
    pipes: &mut P,
    tables: &mut MemTables,
    cache: &mut BlockCache,
    rounds: &mut Rounds,
    held: Option<FileSeq>,
    restated: bool,
    known: Option<Survey>,
) -> Result<Purged>
    requires { restated ≡ false → SurveysIfTold (count_of rounds.old) tables.old known }
    ensures ok { IfOk result (λ purged. PurgesAppend held restated tables.old tables.new
        rounds.old rounds.new purged.answered.items
        (shows (P.shown pipes.old) tables.old cache.old) (shows (P.shown pipes.new) tables.new cache.new)) }
    ensures err { IfErr result (λ error. FailsToPurgeAppend error
        (shows (P.shown pipes.old) tables.old cache.old) (shows (P.shown pipes.new) tables.new cache.new)) }
    ensures standing { IfOk result (λ purged. StandIfTold purged.standing tables.new) }
    ensures uncounted { OnErr result (rounds.new ≡ rounds.old) }
    ensures rests { IsAtRest tables.old → IsAtRest tables.new }
    ensures owes { AddsNoMarks tables.old tables.new }
{
    let watermarks = append_watermarks(pipes);
    let picked = pick_groups(alloc, tables, &watermarks, rounds, restated, known)?;
    let marks = picked.marks.as_slice();
    delete_before_writing(alloc, rt, pipes, tables, cache, marks, held)?;
    let gate = watermarks.rewrite;
    let standing = rewrite_picked(
        alloc,
        rt,
        pipes,
        tables,
        cache,
        picked.rewritten.as_slice(),
        marks,
        gate,
        held,
    )?;
    *rounds = picked.rounds;
    Ok(Purged {
        answered: picked.answered,
        standing: Some(standing),
    })
}

/// Picks groups by the rules, and takes the owed tombstones: from a survey made before, or from one walk over the
/// groups.
pub fn pick_groups(
    alloc: Global,
    tables: &MemTables,
    watermarks: &Watermarks,
    rounds: &Rounds,
    restated: bool,
    known: Option<Survey>,
) -> Result<PickedGroups, AllocError>
    requires { restated ≡ false → SurveysIfTold (count_of rounds.now) tables.now known }
    ensures { IfOk result (PicksGroups watermarks.now restated tables.now rounds.now) }
{
    let Survey { picked, marks, .. } = survey_unless_known(
        alloc, tables, watermarks, rounds, restated, known,
    )?;
    let GroupLists {
        asked,
        rewritten,
        answered,
    } = picked;
    let next = rounds.behind(alloc, asked.as_slice())?;
    Ok(PickedGroups {
        answered,
        rewritten,
        marks,
        rounds: next,
    })
}

/// Deletes files of Append before the purge writes anything, so that it frees space on a full disk: syncs Rewrite, and
/// takes the files below the lowest one in use out of the live range. Does nothing if a tombstone is owed (`marks`): it
/// has to be written to Rewrite first.
///
/// Fails as a sync or `delete_unreferenced_files` does. If it fails, the map is kept.
pub fn delete_before_writing<P: PipeLog, L: Log>(
    alloc: Global,
    rt: &L,
    pipes: &mut P,
    tables: &MemTables,
    cache: &mut BlockCache,
    marks: &[LogItem],
    held: Option<FileSeq>,
) -> Result<()>
    requires { AreOwed tables.now marks.now }
    ensures ok { OnOk result (DeletesFirst held tables.now marks.now
        (shows (P.shown pipes.old) tables.now cache.old) (shows (P.shown pipes.new) tables.now cache.new)) }
    ensures err { IfErr result (λ error. FailsToPurgeAppend error
        (shows (P.shown pipes.old) tables.now cache.old) (shows (P.shown pipes.new) tables.now cache.new)) }
{
    if !marks.is_empty() {
        return Ok(());
    }
    pipes.sync(rt, LogQueue::Rewrite)?;
    delete_unreferenced_files(alloc, rt, pipes, tables, cache, held)?;
    Ok(())
}

/// Writes the owed tombstones, rewrites these groups up to a file, syncs Rewrite, and takes files out of Append's
/// live range. Returns how many entries and values are live in Rewrite then.
pub fn rewrite_picked<P: PipeLog, L: Log>(
    alloc: Global,
    rt: &L,
    pipes: &mut P,
    tables: &mut MemTables,
    cache: &mut BlockCache,
    groups: &[u64],
    marks: &[LogItem],
    gate: FileSeq,
    held: Option<FileSeq>,
) -> Result<u64>
    requires { AreOwed tables.old marks.now }
    ensures ok { OnOk result (RewritesPicked (λ g. list_any (λ k. k == g) groups.now) gate held tables.new
        (shows (P.shown pipes.old) tables.old cache.old) (shows (P.shown pipes.new) tables.new cache.new)) }
    ensures err { IfErr result (λ error. FailsToPurgeAppend error
        (shows (P.shown pipes.old) tables.old cache.old) (shows (P.shown pipes.new) tables.new cache.new)) }
    ensures standing { IfOk result (Stand tables.new) }
    ensures rests { IsAtRest tables.old → IsAtRest tables.new }
    ensures owes { AddsNoMarks tables.old tables.new }
{
    write_tombstones(alloc, rt, pipes, tables, marks)?;
    rewrite_synced(alloc, rt, pipes, tables, cache, groups, gate)?;
    delete_unreferenced_files(alloc, rt, pipes, tables, cache, held)
}

/// Takes Append's files below the lowest one in use out of its live range. The active file stays, and so does each file
/// from the first pinned one on. Returns how many entries and values are live in Rewrite, counted by the same walk.
///
/// Fails with `Memory`, with `NumberRange` if a queue is at its last number, or with `Failed` if a file call failed.
fn delete_unreferenced_files<P: PipeLog, L: Log>(
    alloc: Global,
    rt: &L,
    pipes: &mut P,
    tables: &MemTables,
    cache: &mut BlockCache,
    held: Option<FileSeq>,
) -> Result<u64>
    ensures ok { OnOk result (LosesBelow held tables.now
        (shows (P.shown pipes.old) tables.now cache.old) (shows (P.shown pipes.new) tables.now cache.new)) }
    ensures err { IfErr result (λ error. FailsToLoseBelow error
        (shows (P.shown pipes.old) tables.now cache.old) (shows (P.shown pipes.new) tables.now cache.new)) }
    ensures standing { IfOk result (Stand tables.now) }
{
    let (first, last) = pipes.file_span(LogQueue::Append);
    let (least, standing) = tables.min_file_and_live_count(LogQueue::Append, up_to(held, last));
    if least <= first {
        return Ok(standing);
    }
    cache.clear();
    match pipes.purge_to(alloc, rt, FileId::new(LogQueue::Append, least)) {
        Ok(_) => Ok(standing),
        Err(error) => Err(error),
    }
}
