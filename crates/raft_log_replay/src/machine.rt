//! Machines that take the batches of a queue, and factories that make them.
ghost use Rattle.std.specs.Prelude.{◌≡◌, List, [], OnOk, IfOk, IfErr};
ghost use Rattle.raft_log_record_base.specs.declared.errors.Error.{Error};
ghost use Rattle.raft_log_record_base.specs.declared.errors.Error.TheVariants.{Memory};
ghost use Rattle.raft_log_record_base.specs.declared.pipe_log.LogQueue.{LogQueue};
ghost use Rattle.raft_log_replay.specs.Machines.{Batch, DeclinesBatch, DeclinesLater, JoinsLater, TakesBatch};

use raft_log_record_base::{FileId, LogQueue, Result};
use raft_log_record_items::LogItem;

/// Takes the batches of a queue, one after the other. If a call fails, nothing is promised of the machine, so it may
/// only be dropped.
pub trait ReplayMachine: Drop + Sized {
    // The machine has read these batches of a queue.
    ghost reads: { LogQueue → List Batch → Self → Type 0 };

    // Why a machine fails at batches of a queue that it is to read one after the other.
    ghost declines: { LogQueue → List Batch → Error → Type 0 };

    /// Takes the items of a batch that was read in a file. Fails only as `declines` allows.
    fn replay(&mut self, items: Vec<LogItem>, file: FileId) -> Result<()>
        ensures ok { OnOk result (TakesBatch reads file items.items self.old self.new) }
        ensures errors { IfErr result (DeclinesBatch reads declines file items.items self.old) };

    /// Merges a machine that read the next batches of the same queue into this one. Fails only as `declines` allows.
    fn merge(&mut self, later: Self, queue: LogQueue) -> Result<()>
        ensures ok { OnOk result (JoinsLater (reads queue) self.old later self.new) }
        ensures errors { IfErr result (DeclinesLater (reads queue) (declines queue) self.old later) };
}

/// Makes machines: one for each chunk of a queue, and one into which these are merged.
pub trait Factory<M: ReplayMachine>: Sync {
    /// A machine that has read nothing. Fails only with `Memory`.
    fn new_target(&self) -> Result<M>
        ensures ok { IfOk result (λ machine. (queue : LogQueue) → M.reads queue [] machine) }
        ensures errors { IfErr result (λ e. e ≡ Memory) };
}
