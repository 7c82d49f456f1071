//! Returns what a store counts.
ghost use Rattle.std.specs.Prelude.{◌≡◌, IfErr, IfOk, OnOk};
ghost use Rattle.raft_log_record_base.specs.declared.pipe_log.LogQueue.TheVariants.{Append, Rewrite};
ghost use Rattle.raft_log_engine.specs.raft_log_engine_core.specs.Reads.{shows_of, IsFailed, Lives};
ghost use Rattle.raft_log_engine.specs.raft_log_engine_core.specs.Whole.{used_size, TellsSpan};

use super::LogVoterStore;
use crate::counters::{StoreCounters, WorkCounters};
use raft_log_engine::{LogQueue, PipeLog, Result};

impl<P: PipeLog> LogVoterStore<P> {
    /// What the store has done since it was opened, even if it has failed.
    pub fn work(&self) -> WorkCounters
        ensures { result ≡ self.now.work }
    {
        self.work
    }

    /// What the store has done since it was opened, and how large its log is. It reads no file. Fails with `Failed` if
    /// the engine has failed.
    pub fn counters(&self) -> Result<StoreCounters>
        ensures work { IfOk result (λ counters. counters.work ≡ self.now.work) }
        ensures used { IfOk result (λ counters. counters.used_bytes ≡ used_size (P.shown self.now.engine.pipes)) }
        ensures append { IfOk result (λ counters. TellsSpan Append (P.shown self.now.engine.pipes)
            counters.append_files.0 counters.append_files.1) }
        ensures rewrite { IfOk result (λ counters. TellsSpan Rewrite (P.shown self.now.engine.pipes)
            counters.rewrite_files.0 counters.rewrite_files.1) }
        ensures lived { OnOk result (Lives (shows_of P.shown self.now.engine)) }
        ensures err { IfErr result (IsFailed (shows_of P.shown self.now.engine)) }
    {
        let used_bytes = self.engine.get_used_size()?;
        let append_files = self.engine.file_span(LogQueue::Append)?;
        let rewrite_files = self.engine.file_span(LogQueue::Rewrite)?;
        Ok(StoreCounters {
            work: self.work,
            used_bytes,
            append_files,
            rewrite_files,
        })
    }
}
