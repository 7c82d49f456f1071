//! Applies atomic groups that are whole.
ghost use Rattle.std.specs.Prelude.{◌≡◌, ◌||◌, ℕ, Some, IfErr, OnOk};
ghost use Rattle.raft_log_record_base.specs.declared.errors.Error.TheVariants.{Memory};
ghost use Rattle.raft_log_memtables.specs.Batch.{mentions};
ghost use Rattle.raft_log_memtables.specs.Tables.{counts, replayed_of, IsAtRest};
ghost use Rattle.raft_log_replay_context.specs.Pieces.{ends_with, with_file};
ghost use Rattle.raft_log_replay_context.specs.Noting.{is_listed, NotesAll, SettlesAll, SettlesGroup, SettlesWhole};

use crate::part::GroupPart;
use raft_log_memtable_index::GroupFiles;
use raft_log_memtables::MemTables;
use raft_log_record_base::{FileSeq, Result};
use raft_log_record_items::LogItem;
use std::alloc::{AllocError, Global};

/// Applies these atomic groups, one after the other.
pub(crate) fn settle_all(
    alloc: Global,
    tables: &mut MemTables,
    done: Vec<Vec<GroupPart>>,
) -> Result<()>
    ensures ok { OnOk result (SettlesAll done.items tables.old tables.new) }
    ensures errors { IfErr result (λ e. e ≡ Memory) }
    ensures rest { IsAtRest tables.old → IsAtRest tables.new }
{
    for parts in done {
        settle(alloc, tables, parts)?;
    }
    Ok(())
}

/// Applies this atomic group, if there is one.
pub(crate) fn settle_whole(
    alloc: Global,
    tables: &mut MemTables,
    whole: Option<Vec<GroupPart>>,
) -> Result<()>
    ensures ok { OnOk result (SettlesWhole whole tables.old tables.new) }
    ensures errors { IfErr result (λ e. e ≡ Memory) }
    ensures rest { IsAtRest tables.old → IsAtRest tables.new }
{
    match whole {
        Some(parts) => settle(alloc, tables, parts),
        None => Ok(()),
    }
}

/// Applies the items of an atomic group's records to the tables. In the table of each of their raft groups it also
/// notes the files of the atomic group, from the lowest to the highest. Files that were noted before stay noted.
fn settle(alloc: Global, tables: &mut MemTables, parts: Vec<GroupPart>) -> Result<()>
    ensures ok { OnOk result (SettlesGroup parts.items tables.old tables.new) }
    ensures errors { IfErr result (λ e. e ≡ Memory) }
    ensures rest { IsAtRest tables.old → IsAtRest tables.new }
{
    let mut groups = Vec::new(alloc);
    let mut files = None;
    for part in parts {
        files = Some(with_file(files, part.file));
        add_groups(&mut groups, part.items.as_slice())?;
        tables.replay_rewrite_writes(part.items, part.file)?;
    }
    note_groups(tables, groups.as_slice(), files);
    Ok(())
}

/// The files of an atomic group with one more record.
fn with_file(files: Option<GroupFiles>, file: FileSeq) -> GroupFiles
    ensures { result ≡ with_file files file }
{
    match files {
        Some(files) => GroupFiles {
            from: files.from.min(file),
            to: files.to.max(file),
        },
        None => GroupFiles {
            from: file,
            to: file,
        },
    }
}

/// Adds the raft groups of the items, and one that comes several times in a row only once.
fn add_groups(groups: &mut Vec<u64>, items: &[LogItem]) -> Result<(), AllocError>
    ensures { OnOk result ((g : ℕ) → is_listed g groups.new.items
        ≡ (is_listed g groups.old.items || mentions g items.now)) }
{
    for item in items {
        if !ends_with(groups.as_slice(), item.raft_group_id) {
            groups.push(item.raft_group_id)?;
        }
    }
    Ok(())
}

/// Whether this is the last of the groups.
fn ends_with(groups: &[u64], group: u64) -> bool
    ensures { result ≡ ends_with groups.now group }
{
    match groups.last() {
        Some(last) => *last == group,
        None => false,
    }
}

/// Notes the files of an atomic group, if it has any, in the tables of these raft groups.
fn note_groups(tables: &mut MemTables, groups: &[u64], files: Option<GroupFiles>)
    ensures notes { NotesAll files (λ g. is_listed g groups.now) (replayed_of tables.old)
        (replayed_of tables.new) }
    ensures counts { (g : ℕ) → counts tables.new g ≡ counts tables.old g }
    ensures rest { IsAtRest tables.old → IsAtRest tables.new }
{
    match files {
        Some(files) => note_each(tables, groups, files),
        None => {}
    }
}

/// Notes the files in the tables of these raft groups.
fn note_each(tables: &mut MemTables, groups: &[u64], files: GroupFiles)
    ensures notes { NotesAll (Some files) (λ g. is_listed g groups.now) (replayed_of tables.old)
        (replayed_of tables.new) }
    ensures counts { (g : ℕ) → counts tables.new g ≡ counts tables.old g }
    ensures rest { IsAtRest tables.old → IsAtRest tables.new }
{
    for group in groups {
        tables.note_read_group(*group, files);
    }
}
