//! A step of a purge of Append: it copies only some of the groups that the rules pick.

ghost use Rattle.std.specs.Prelude.{◌≡◌, IfErr, IfOk, OnErr};
ghost use Rattle.raft_log_purge_copy.specs.raft_log_engine_laws.specs.EngineState.{shows};
ghost use Rattle.raft_log_memtables.specs.Tables.{IsAtRest};
ghost use Rattle.raft_log_purge_copy.specs.Owed.{AddsNoMarks};
ghost use Rattle.raft_log_purge.specs.Expired.{FailsToPurgeAppend};
ghost use Rattle.raft_log_purge_steps.specs.Part.{PurgesPart};

use crate::compacting::first_groups;
use crate::step::PurgeStep;
use crate::weights::affordable;
use log::Log;
use raft_log_dual_pipes::PipeLog;
use raft_log_memtables::MemTables;
use raft_log_purge::expired::{delete_before_writing, pick_groups, rewrite_picked};
use raft_log_purge_copy::raft_log_block_cache::BlockCache;
use raft_log_purge_policy::{Rounds, append_watermarks};
use raft_log_record_base::{FileSeq, Result};
use std::alloc::Global;

/// Purges Append in part, whatever its size is. Does what a whole purge does (`purge_append`), but of the groups that
/// the rules pick it copies only the first: the fewest that weigh as much as the budget, but at least one, or all.
///
/// Returns the groups that the caller is asked to compact, and whether picked groups are left. If none is left, the
/// round is counted: so it is counted once in a purge, however many steps it takes.
///
/// Fails with `Memory` before anything is done, or as `write_tombstones`, `rewrite_groups`, a sync or `purge_to` does.
/// If it fails, no round is counted. Whether it succeeds or fails, the map is kept if nothing of Append was pending,
/// after `Failed` by the files.
pub fn purge_part<P: PipeLog, L: Log>(
    alloc: Global,
    rt: &L,
    pipes: &mut P,
    tables: &mut MemTables,
    cache: &mut BlockCache,
    rounds: &mut Rounds,
    held: Option<FileSeq>,
    budget: u64,
) -> Result<PurgeStep>
    ensures ok { IfOk result (λ step. PurgesPart held budget tables.old tables.new rounds.old rounds.new step
        (shows (P.shown pipes.old) tables.old cache.old) (shows (P.shown pipes.new) tables.new cache.new)) }
    ensures err { IfErr result (λ error. FailsToPurgeAppend error
        (shows (P.shown pipes.old) tables.old cache.old) (shows (P.shown pipes.new) tables.new cache.new)) }
    ensures uncounted { OnErr result (rounds.new ≡ rounds.old) }
    ensures rests { IsAtRest tables.old → IsAtRest tables.new }
    ensures owes { AddsNoMarks tables.old tables.new }
{
    let watermarks = append_watermarks(pipes);
    let gate = watermarks.rewrite;
    let picked = pick_groups(alloc, tables, &watermarks, rounds, false, None)?;
    let groups = picked.rewritten.as_slice();
    let count = affordable(alloc, tables, groups, Some(gate), budget)?;
    let part = first_groups(groups, count);
    let more = count < groups.len();
    let marks = picked.marks.as_slice();
    delete_before_writing(alloc, rt, pipes, tables, cache, marks, held)?;
    rewrite_picked(alloc, rt, pipes, tables, cache, part, marks, gate, held)?;
    if more {
        return Ok(PurgeStep {
            answered: picked.answered,
            more,
        });
    }
    *rounds = picked.rounds;
    Ok(PurgeStep {
        answered: picked.answered,
        more,
    })
}
