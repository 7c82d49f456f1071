//! Counts what a failed compaction of Rewrite leaves: the old copies of a group that was restated are garbage.

ghost use Rattle.raft_log_memtables.specs.Tables.{shown_of};
ghost use Rattle.raft_log_purge.specs.Garbage.{CountsGarbage, CountsPast, StandsPast};

use raft_log_memtable::GlobalStats;
use raft_log_memtables::MemTables;
use raft_log_record_base::{FileSeq, LogQueue};

/// Counts what these groups have live in Rewrite after this file: adds it to what was written, and as much to the
/// garbage.
pub fn count_restated(stats: &mut GlobalStats, tables: &MemTables, groups: &[u64], file: FileSeq)
    ensures { CountsGarbage file (shown_of tables.now) groups.now stats.old stats.new }
{
    let count = count_past(tables, groups, file);
    stats.add(LogQueue::Rewrite, count);
    stats.delete(LogQueue::Rewrite, count);
}

/// How many live entries and values these groups have in Rewrite, as `standing_past` counts them, at most 2^64 - 1.
fn count_past(tables: &MemTables, groups: &[u64], file: FileSeq) -> u64
    ensures { CountsPast file (shown_of tables.now) groups.now result }
{
    let mut count: u64 = 0;
    for group in groups {
        count = count.saturating_add(standing_past(tables, *group, file));
    }
    count
}

/// How many live entries and values a group has in Rewrite, if all of them are past this file there; else 0.
fn standing_past(tables: &MemTables, group: u64, file: FileSeq) -> u64
    ensures { StandsPast file (shown_of tables.now group) result }
{
    let Some(table) = tables.known_table(group) else {
        return 0;
    };
    let Some(least) = table.min_file_seq(LogQueue::Rewrite) else {
        return 0;
    };
    if least > file {
        table.standing_count()
    } else {
        0
    }
}
