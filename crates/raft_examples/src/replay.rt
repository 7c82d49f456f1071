//! A caller of `raft_log_memtables`: finds the end of a group's log.

ghost use Rattle.std.specs.Prelude.{◌≡◌, option_and_then};
ghost use Rattle.raft_log_memtables.specs.Tables.{table_of};
ghost use Rattle.raft_log_memtable.specs.Reads.{last_of};
ghost use Rattle.raft_log_memtable.specs.Table.{shown};

use raft_log_memtables::MemTables;

/// The last index of a group's entries; none if the group has taken nothing since it was last cleaned, or has no
/// entries.
pub fn last_index(tables: &MemTables, group: u64) -> Option<u64>
    ensures { result ≡ option_and_then (λ table. last_of (shown table)) (table_of tables.now group) }
{
    tables.get(group)?.last_index()
}
