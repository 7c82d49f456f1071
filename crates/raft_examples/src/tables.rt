//! A caller of a group's table.

ghost use Rattle.std.specs.Prelude.{◌≡◌, ℕ, map, OnOk, OnErr, IfOk};
ghost use Rattle.std.specs.Fn.{FnOnceReturnsAt};
ghost use Rattle.raft_log_record_base.specs.declared.pipe_log.FileBlockHandle.{FileBlockHandle};
ghost use Rattle.std.specs.declared.result.Result.TheVariants.{Ok};
ghost use Rattle.raft_log_record_items.specs.Placed.{written_entry};
ghost use Rattle.raft_log_extents.specs.Entries.{run_of};
ghost use Rattle.raft_log_memtable_index.specs.Shown.{stepped};
ghost use Rattle.raft_log_memtable.specs.Table.{shown};

use raft_log_memtable::MemTable;
use raft_log_record_items::{EntryIndex, EntryIndexes, FileBlockHandle, Result};

/// Writes entries of a group, and applies them to its table. It makes room before the write, so that nothing can fail
/// after it. If anything fails, the table is unchanged.
pub fn write_entries<F: FnOnce(&[EntryIndex]) -> Result<FileBlockHandle>>(
    table: &mut MemTable,
    entries: &mut EntryIndexes,
    write: F,
) -> Result<()>
    requires { F.IsAlwaysCallable write }
    ensures ok { OnOk result ((n : ℕ) → shown table.new ≡ stepped n (shown table.old) (run_of entries.new)) }
    ensures err { OnErr result (shown table.new ≡ shown table.old) }
    ensures written { OnOk result ((block : FileBlockHandle)
        × FnOnceReturnsAt F.FnOnce write entries.old (Ok block)
        × (entries.new ≡ map (written_entry block) entries.old)) }
{
    table.take_back();
    table.prepare_append(entries.as_slice())?;
    let block = write(entries.as_slice())?;
    entries.set_written(block);
    table.append(entries.as_slice());
    Ok(())
}
