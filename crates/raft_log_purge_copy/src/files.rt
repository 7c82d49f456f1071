//! Removes files that are no longer needed from a queue's live range.

ghost use Rattle.std.specs.Prelude.{IfErr, IfOk};
ghost use Rattle.raft_log_engine_laws.specs.EngineState.{shows};
ghost use Rattle.raft_log_purge_copy.specs.Files.{FailsToLoseFiles, LosesFiles};

use log::Log;
use raft_log_block_cache::BlockCache;
use raft_log_dual_pipes::PipeLog;
use raft_log_memtables::MemTables;
use raft_log_record_base::{FileId, FileSeq, LogQueue, Result};
use std::alloc::Global;

/// Removes the files of a queue below the first in use from its live range, but none from the limit on. Returns how
/// many; 0 if the first in use is older than the live range. Clears the cache.
///
/// The log keeps its contents if nothing is pending in either queue and, for Append, no tombstone is owed.
///
/// Fails with:
/// - `Memory`
/// - `NumberRange` if a queue has the last file number
/// - `Other` if the limit isn't in the live range
/// - `Failed` if a file call failed: the engine has failed, and an open finds the contents
///
/// After any other error the log has its contents, and nothing is pending.
pub fn delete_stale_files<P: PipeLog, L: Log>(
    alloc: Global,
    rt: &L,
    pipes: &mut P,
    tables: &MemTables,
    cache: &mut BlockCache,
    queue: LogQueue,
    limit: FileSeq,
) -> Result<usize>
    ensures ok { IfOk result (λ count. LosesFiles queue limit tables.now count
        (shows (P.shown pipes.old) tables.now cache.old) (shows (P.shown pipes.new) tables.now cache.new)) }
    ensures err { IfErr result (λ error. FailsToLoseFiles queue limit error
        (shows (P.shown pipes.old) tables.now cache.old) (shows (P.shown pipes.new) tables.now cache.new)) }
{
    let seq = tables.least_file(queue, limit);
    cache.clear();
    let (first, _last) = pipes.file_span(queue);
    if seq < first {
        return Ok(0);
    }
    pipes.purge_to(alloc, rt, FileId::new(queue, seq))
}
