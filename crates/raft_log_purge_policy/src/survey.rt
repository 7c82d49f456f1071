//! What a purge of Append has to know of all groups before it begins, from one walk over them.

ghost use Rattle.std.specs.Prelude.{◌≡◌, false, IfOk};
ghost use Rattle.raft_log_purge_policy.specs.Picking.{count_of};
ghost use Rattle.raft_log_purge_policy.specs.Surveying.{SurveysIfTold, Surveys};

use crate::Watermarks;
use crate::picking::{GroupLists, pick};
use crate::rounds::Rounds;
use raft_log_memtables::MemTables;
use raft_log_record_items::LogItem;
use std::alloc::{AllocError, Global};

/// What a purge of Append has to know of all groups before it begins.
#[derive(Drop)]
pub struct Survey {
    /// Up to which files of Append the purge rewrites.
    pub watermarks: Watermarks,
    /// The groups that it picks.
    pub picked: GroupLists,
    /// The tombstones owed to Rewrite, as the items of one batch.
    pub marks: Vec<LogItem>,
    /// How many live entries and values Rewrite has, at most 2^64 - 1.
    pub standing: u64,
}

/// Finds what a purge of Append up to these watermarks has to know of all groups. Visits each group once, and makes
/// no list of them.
pub fn survey_groups(
    alloc: Global,
    tables: &MemTables,
    watermarks: &Watermarks,
    rounds: &Rounds,
    restated: bool,
) -> Result<Survey, AllocError>
    ensures { IfOk result (Surveys watermarks.now (count_of rounds.now) restated tables.now) }
{
    let mut picked = GroupLists::new(alloc);
    let mut marks = Vec::new(alloc);
    let mut standing: u64 = 0;
    for (group, held) in tables.iter() {
        let table = held.table();
        pick(&mut picked, table, watermarks, rounds, restated, *group)?;
        held.add_owed(*group, &mut marks)?;
        standing = standing.saturating_add(table.standing_count());
    }
    Ok(Survey {
        watermarks: *watermarks,
        picked,
        marks,
        standing,
    })
}

/// Returns the survey for a purge of Append up to these watermarks. Reuses the known one if it was made for them and
/// Rewrite wasn't rewritten since; else makes a new one. The known one must have been made of these tables with these
/// counts.
pub fn survey_unless_known(
    alloc: Global,
    tables: &MemTables,
    watermarks: &Watermarks,
    rounds: &Rounds,
    restated: bool,
    known: Option<Survey>,
) -> Result<Survey, AllocError>
    requires { restated ≡ false → SurveysIfTold (count_of rounds.now) tables.now known }
    ensures { IfOk result (Surveys watermarks.now (count_of rounds.now) restated tables.now) }
{
    match known {
        Some(known) if !restated && known.watermarks == *watermarks => Ok(known),
        _ => survey_groups(alloc, tables, watermarks, rounds, restated),
    }
}
