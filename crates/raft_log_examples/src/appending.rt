//! Appends a line to a log.
ghost use Rattle.std.specs.Prelude.{IfOk};
ghost use Rattle.raft_log_engine.specs.raft_log_engine_core.specs.Reads.{shows_of};
ghost use Rattle.raft_log_examples.specs.Appending.{AppendsLine};

use log::Log;
use raft_log_engine::{EntryIndex, LogBatch, LogEngine, PipeLog, Result};
use std::alloc::Global;

/// The group whose entries the lines are.
pub const GROUP: u64 = 1;

/// Appends a line after the last entry, syncs it, and returns its index; the first index is 1.
pub fn append<P: PipeLog, R: Log>(
    rt: &R,
    alloc: Global,
    engine: &mut LogEngine<P>,
    line: &[u8],
) -> Result<u64>
    ensures ok { IfOk result (λ index.
        AppendsLine line.now index (shows_of P.shown engine.old) (shows_of P.shown engine.new)) }
{
    let last = engine.last_index(GROUP)?.unwrap_or(0);
    let index = last.saturating_add(1);
    let mut batch = LogBatch::default(alloc)?;
    batch.add_raw_entries(alloc, GROUP, &[EntryIndex::unplaced(index, 0)], &[line])?;
    engine.write(rt, &mut batch, true)?;
    Ok(index)
}
