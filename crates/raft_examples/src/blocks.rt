//! A caller of `raft_log_block_cache`: reads entries, and their block once.

ghost use Rattle.std.specs.Prelude.{IfOk};
ghost use Rattle.raft_examples.specs.Blocks.{ReadsEnds};

use raft_log_block_cache::BlockCache;
use raft_log_dual_pipes::PipeLog;
use raft_log_record_base::Result;
use raft_log_record_items::{EntryIndex, Message};
use std::alloc::Global;

/// Reads two entries, for example the first and the last one of a log. If they are in one block, it is read once.
pub fn read_ends<M: Message, P: PipeLog>(
    alloc: Global,
    pipes: &P,
    first: &EntryIndex,
    last: &EntryIndex,
) -> Result<(M, M)>
    ensures { IfOk result (λ ends. ReadsEnds M.reading (P.shown pipes.now) first.now last.now ends.0 ends.1) }
{
    let mut cache = BlockCache::new(alloc);
    let one = cache.read_entry(alloc, pipes, first)?;
    let other = cache.read_entry(alloc, pipes, last)?;
    Ok((one, other))
}
