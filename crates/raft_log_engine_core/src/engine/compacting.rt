//! Log compaction: deletes a group's entries below an index.

ghost use Rattle.std.specs.Prelude.{◌≡◌, IfErr, IfOk, OnErr, OnOk};
ghost use Rattle.raft_log_record_base.specs.declared.errors.Error.TheVariants as errors;
ghost use Rattle.raft_log_record_batches.specs.declared.log_batch.BatchState.TheVariants.{Filling};
ghost use Rattle.raft_log_record_base.specs.declared.pipe_log.LogQueue.TheVariants.{Append};
ghost use Rattle.raft_log_memtables.specs.Tables.{shown_of};
ghost use Rattle.raft_log_dual_pipes.specs.Telling.{Hears, files_begun};
ghost use Rattle.raft_log_engine_core.specs.Compacting.{entries_below, CompactsTo, FailsToCompact, SaysCompact};
ghost use Rattle.raft_log_engine_core.specs.Hearing.{HearsCompact};
ghost use Rattle.raft_log_engine_core.specs.ModelCalls.{FollowsModel, ModelCompacts};
ghost use Rattle.raft_log_engine_core.specs.Reads.{shows_of};
ghost use Rattle.raft_log_engine_core.specs.Touching.{StaysPurged};

use super::LogEngine;
use log::Log;
use raft_log_dual_pipes::PipeLog;
use raft_log_record_base::{Error, Result};
use raft_log_record_batches::LogBatch;
use raft_log_record_items::Command;
use std::alloc::Global;

impl<P: PipeLog> LogEngine<P> {
    /// Writes a batch that deletes a group's entries below an index, and returns how many it deletes. Doesn't sync. For
    /// a group without entries it writes nothing, and returns 0. Listeners hear of the record as of any other.
    ///
    /// Fails with `Failed` if the engine has failed, with `Memory` before anything is done, or as `write` does.
    pub fn compact_to<L: Log>(&mut self, rt: &L, raft_group_id: u64, index: u64) -> Result<u64>
        ensures model { FollowsModel (ModelCompacts raft_group_id index) result
            (shows_of P.shown self.old) (shows_of P.shown self.new) }
        ensures ok { IfOk result (λ count. CompactsTo raft_group_id index count
            (shows_of P.shown self.old) (shows_of P.shown self.new)) }
        ensures err { IfErr result (λ error. FailsToCompact raft_group_id index error
            (shows_of P.shown self.old) (shows_of P.shown self.new)) }
        ensures told { OnOk result (HearsCompact raft_group_id index P.hears
            (shows_of P.shown self.old) (shows_of P.shown self.new)
            (P.listener self.old.pipes) (P.listener self.new.pipes)) }
        ensures told_less { OnErr result (Hears P.hears
            (files_begun Append (P.shown self.old.pipes) (P.shown self.new.pipes))
            (P.listener self.old.pipes) (P.listener self.new.pipes)) }
        ensures purges { StaysPurged self.old self.new }
    {
        if self.is_failed() {
            return Err(Error::Failed);
        }
        let Some(count) = self.entries_below(raft_group_id, index) else {
            return Ok(0);
        };
        let mut batch = compact_batch(self.alloc, raft_group_id, index)?;
        match self.write(rt, &mut batch, false) {
            Ok(_) => Ok(count),
            Err(error) => Err(error),
        }
    }

    /// How many of a group's entries are below an index, if it has entries.
    fn entries_below(&self, raft_group_id: u64, index: u64) -> Option<u64>
        ensures { result ≡ entries_below (shown_of self.now.tables raft_group_id) index }
    {
        let span = self.tables.known_table(raft_group_id)?.span();
        if span.first == span.end {
            return None;
        }
        Some(index.min(span.end).saturating_sub(span.first))
    }
}

/// The batch that deletes a group's entries below an index. Fails only with `Memory`.
fn compact_batch(alloc: Global, raft_group_id: u64, index: u64) -> Result<LogBatch>
    ensures ok { IfOk result (SaysCompact raft_group_id index) }
    ensures err { IfErr result (λ error. error ≡ errors.Memory) }
{
    let mut batch = LogBatch::with_capacity(alloc, 1)?;
    batch.add_command(raft_group_id, Command::Compact { index })?;
    Ok(batch)
}
