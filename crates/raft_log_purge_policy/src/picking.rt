//! The groups that a purge of Append picks.

ghost use Rattle.std.specs.Prelude.{◌≡◌, [], ◌∷◌, ◌++◌, Some, option_copied, IfOk, OnOk, if◌then◌else◌};
ghost use Rattle.std.specs.List.{filter};
ghost use Rattle.raft_log_memtables.specs.Walking.{ListsGroups};
ghost use Rattle.raft_log_purge_policy.specs.Picking.{
  answers_at,
  answers_in,
  asks_by,
  asks_in,
  count_of,
  rewrites_in,
};

use crate::Watermarks;
use crate::rounds::Rounds;
use crate::rules::{asks, rewrites};
use raft_log_memtable::MemTable;
use raft_log_memtables::MemTables;
use std::alloc::{AllocError, Global};

/// A group with so many entries in Rewrite, or fewer, isn't returned for those.
const MOST_REWRITTEN: usize = 32;

/// The groups that a purge of Append picks, each list sorted.
#[derive(Drop)]
pub struct GroupLists {
    /// Those that it asks its caller to compact.
    pub asked: Vec<u64>,
    /// Those that it rewrites itself.
    pub rewritten: Vec<u64>,
    /// Those that it returns to its caller. It asks the caller to compact them; or Rewrite was rewritten, and they have
    /// more than 32 entries there.
    pub answered: Vec<u64>,
}

impl GroupLists {
    /// No group is picked.
    pub(crate) fn new(alloc: Global) -> GroupLists
        ensures asked { result.asked.items ≡ [] }
        ensures rewritten { result.rewritten.items ≡ [] }
        ensures answered { result.answered.items ≡ [] }
    {
        GroupLists {
            asked: Vec::new(alloc),
            rewritten: Vec::new(alloc),
            answered: Vec::new(alloc),
        }
    }
}

/// The groups that a purge returns to its caller, sorted:
/// - those that the caller is asked to compact, if Append is purged up to watermarks
/// - those that have more than 32 entries in Rewrite, if Rewrite was rewritten
pub fn answered_groups(
    alloc: Global,
    tables: &MemTables,
    watermarks: Option<Watermarks>,
    restated: bool,
) -> Result<Vec<u64>, AllocError>
    ensures { IfOk result (λ groups. ListsGroups (answers_at watermarks restated tables.now) groups.items) }
{
    if watermarks.is_none() && !restated {
        return Ok(Vec::new(alloc));
    }
    let groups = tables.known_groups()?;
    answered_of(alloc, tables, watermarks, restated, groups.as_slice())
}

/// Those of these groups that are returned.
fn answered_of(
    alloc: Global,
    tables: &MemTables,
    watermarks: Option<Watermarks>,
    restated: bool,
    groups: &[u64],
) -> Result<Vec<u64>, AllocError>
    ensures { IfOk result (λ picked.
        picked.items ≡ filter (answers_at watermarks restated tables.now) groups.now) }
{
    let mut picked = Vec::new(alloc);
    for group in groups {
        let wanted = is_answered(watermarks, restated, tables.known_table(*group));
        push_if(&mut picked, *group, wanted)?;
    }
    Ok(picked)
}

/// Adds a group with this table to the lists that it belongs in.
pub(crate) fn pick(
    picked: &mut GroupLists,
    table: &MemTable,
    watermarks: &Watermarks,
    rounds: &Rounds,
    restated: bool,
    group: u64,
) -> Result<(), AllocError>
    ensures asked { OnOk result (picked.new.asked.items ≡ picked.old.asked.items
        ++ (if asks_in watermarks.now (Some table.now) then group ∷ [] else [])) }
    ensures rewritten { OnOk result (picked.new.rewritten.items ≡ picked.old.rewritten.items
        ++ (if rewrites_in watermarks.now (count_of rounds.now group) (Some table.now) then group ∷ [] else [])) }
    ensures answered { OnOk result (picked.new.answered.items ≡ picked.old.answered.items
        ++ (if answers_in (Some watermarks.now) restated (Some table.now) then group ∷ [] else [])) }
{
    let asked = asks(watermarks, table);
    let rewritten = rewrites(watermarks, rounds.count_of(group), table);
    let answered = answers(Some(*watermarks), restated, table);
    push_if(&mut picked.asked, group, asked)?;
    push_if(&mut picked.rewritten, group, rewritten)?;
    push_if(&mut picked.answered, group, answered)
}

/// Adds a group to those that are picked, if it is wanted.
fn push_if(picked: &mut Vec<u64>, group: u64, wanted: bool) -> Result<(), AllocError>
    ensures { OnOk result (picked.new.items
        ≡ picked.old.items ++ (if wanted then group ∷ [] else [])) }
{
    if wanted {
        picked.push(group)?;
    }
    Ok(())
}

/// Whether a group with this table, if it has one, is returned.
fn is_answered(watermarks: Option<Watermarks>, restated: bool, table: Option<&MemTable>) -> bool
    ensures { result ≡ answers_in watermarks restated (option_copied table.entry) }
{
    match table {
        Some(table) => answers(watermarks, restated, table),
        None => false,
    }
}

/// Whether a group with this table is returned.
fn answers(watermarks: Option<Watermarks>, restated: bool, table: &MemTable) -> bool
    ensures { result ≡ answers_in watermarks restated (Some table.now) }
{
    asks_by(watermarks, table) || (restated && MOST_REWRITTEN < table.rewritten_count())
}

/// Whether the caller is asked to compact a group, if Append is purged up to watermarks.
fn asks_by(watermarks: Option<Watermarks>, table: &MemTable) -> bool
    ensures { result ≡ asks_by watermarks table.now }
{
    match watermarks {
        Some(watermarks) => asks(&watermarks, table),
        None => false,
    }
}
