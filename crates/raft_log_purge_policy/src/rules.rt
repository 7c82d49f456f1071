//! Which groups a purge of Append asks its caller to compact, and which it rewrites itself.

ghost use Rattle.std.specs.Prelude.{◌≡◌};
ghost use Rattle.raft_log_record_base.specs.declared.pipe_log.LogQueue.TheVariants.{Append};
ghost use Rattle.raft_log_memtable.specs.Files.{min_file};
ghost use Rattle.raft_log_purge_policy.specs.Rules.{
  asks,
  has_to_rewrite,
  is_below,
  is_heavy,
  is_light,
  is_old,
  rewrites,
};

use crate::Watermarks;
use crate::rounds::ROUNDS_OF_ASKING;
use raft_log_memtable::MemTable;
use raft_log_record_base::{FileId, FileSeq, LogQueue};

/// A group with so many entries is heavy.
const HEAVY_ENTRIES: usize = 32;

/// Whether the caller is asked to compact a group: it is old and heavy.
pub fn asks(watermarks: &Watermarks, table: &MemTable) -> bool
    ensures { result ≡ asks watermarks.now table.now }
{
    is_old(watermarks, table) && is_heavy(watermarks, table)
}

/// Whether a group is rewritten, if `rounds` purges in a row asked for it to be compacted before.
/// It must have something in Append up to the watermark of rewriting. If the caller is asked to
/// compact it, nine purges in a row must have asked before. Otherwise it must have fewer than 32
/// entries in Append up to the watermark.
pub fn rewrites(watermarks: &Watermarks, rounds: u32, table: &MemTable) -> bool
    ensures { result ≡ rewrites watermarks.now rounds table.now }
{
    if asks(watermarks, table) {
        ROUNDS_OF_ASKING <= rounds && has_to_rewrite(watermarks, table)
    } else {
        is_light(watermarks, table) && has_to_rewrite(watermarks, table)
    }
}

/// Whether a group has something in Append below the watermark of old files, or entries in Rewrite.
fn is_old(watermarks: &Watermarks, table: &MemTable) -> bool
    ensures { result ≡ is_old watermarks.now table.now }
{
    is_below(watermarks.compact, table) || 0 < table.rewritten_count()
}

/// Whether a group has 32 entries or more in Rewrite and in Append up to the watermark of
/// rewriting, together.
fn is_heavy(watermarks: &Watermarks, table: &MemTable) -> bool
    ensures { result ≡ is_heavy watermarks.now table.now }
{
    let gate = FileId::new(LogQueue::Append, watermarks.rewrite);
    table.has_at_least_some_entries_before(gate, HEAVY_ENTRIES)
}

/// Whether a group has fewer than 32 entries in Append up to the watermark of rewriting.
fn is_light(watermarks: &Watermarks, table: &MemTable) -> bool
    ensures { result ≡ is_light watermarks.now table.now }
{
    let gate = FileId::new(LogQueue::Append, watermarks.rewrite);
    let count = table.rewritten_count().saturating_add(HEAVY_ENTRIES);
    !table.has_at_least_some_entries_before(gate, count)
}

/// Whether a group has something in Append up to the watermark of rewriting.
fn has_to_rewrite(watermarks: &Watermarks, table: &MemTable) -> bool
    ensures { result ≡ has_to_rewrite watermarks.now table.now }
{
    match table.min_file_seq(LogQueue::Append) {
        Some(least) => least <= watermarks.rewrite,
        None => false,
    }
}

/// Whether a group has something in Append below a file.
fn is_below(file: FileSeq, table: &MemTable) -> bool
    ensures { result ≡ is_below file (min_file Append table.now) }
{
    match table.min_file_seq(LogQueue::Append) {
        Some(least) => least < file,
        None => false,
    }
}
