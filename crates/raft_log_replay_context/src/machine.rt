//! Contexts as machines that take batches, and the factory that makes them.
ghost use Rattle.std.specs.Prelude.{◌≡◌, IfErr, IfOk, List, OnOk, []};
ghost use Rattle.raft_log_record_base.specs.declared.errors.Error.TheVariants.{Memory};
ghost use Rattle.raft_log_record_base.specs.declared.pipe_log.LogQueue.{LogQueue};
ghost use Rattle.raft_log_replay_context.specs.Batches.{Declines, HasReadBatches};

use crate::context::MemTableRecoverContext;
use raft_log_record_base::{FileId, LogQueue, Result};
use raft_log_record_items::LogItem;
use raft_log_replay::{Factory, ReplayMachine};
use std::alloc::Global;

impl ReplayMachine for MemTableRecoverContext {
    ghost reads = { λ queue batches context. HasReadBatches queue batches context };

    ghost declines = { λ queue batches error. Declines queue batches error };

    fn replay(&mut self, items: Vec<LogItem>, file: FileId) -> Result<()> {
        MemTableRecoverContext::replay(self, items, file)
    }

    fn merge(&mut self, later: MemTableRecoverContext, queue: LogQueue) -> Result<()> {
        MemTableRecoverContext::merge(self, later, queue)
    }
}

/// Makes contexts that have read nothing.
#[derive(Drop)]
pub struct MemTableRecoverContextFactory {
    alloc: Global,
}

impl MemTableRecoverContextFactory {
    /// The factory. Its contexts allocate their memory with `alloc`.
    pub fn new(alloc: Global) -> MemTableRecoverContextFactory {
        MemTableRecoverContextFactory { alloc }
    }
}

impl Factory<MemTableRecoverContext> for MemTableRecoverContextFactory {
    fn new_target(&self) -> Result<MemTableRecoverContext> {
        Ok(MemTableRecoverContext::new(self.alloc))
    }
}
