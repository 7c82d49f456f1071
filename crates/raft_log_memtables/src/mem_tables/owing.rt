//! The tombstones that all groups owe to Rewrite.
ghost use Rattle.std.specs.Prelude.{IfOk};
ghost use Rattle.raft_log_memtables.specs.Owing.{AreOwed};

use super::MemTables;
use raft_log_record_items::LogItem;
use std::alloc::AllocError;

impl MemTables {
    /// The tombstones that are owed to Rewrite, as the items of one batch. They are sorted by group number; for each
    /// group come the Clean, the Compact, and the Dels of keys in their order. They stay owed until `clear_marks`.
    pub fn pending_tombstones(&self) -> Result<Vec<LogItem>, AllocError>
        ensures { IfOk result (λ items. AreOwed self.now items.items) }
    {
        let mut items = Vec::new(self.alloc);
        for (group, table) in self.groups.iter() {
            table.add_owed(*group, &mut items)?;
        }
        Ok(items)
    }
}
