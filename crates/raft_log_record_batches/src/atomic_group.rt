//! Atomic groups: several batches that count together or not at all. A mark in each batch says which part it is.
use crate::log_batch::LogBatch;
use raft_log_record_frames::{AtomicGroupStatus, mark_value};
use std::alloc::{AllocError, Global};
use std::marker::Model;

/// Marks the batches of one atomic group: the first, those between, and the last. Each must be `Filling` and have no
/// mark yet. If a mark isn't added for lack of memory, the builder and the batch's items stay as they were.
///
/// Contracts see a builder as the group's number and the last mark that was added.
#[derive(Debug, Drop)]
pub struct AtomicGroupBuilder {
    id: u64,
    status: Option<AtomicGroupStatus>,
}

impl Model for AtomicGroupBuilder {
    ghost use Rattle.raft_log_record_batches.specs.AtomicGroup.{AtomicGroup};

    ghost Value = { AtomicGroup };

    ghost view = { λ b. record { id = b.id; status = b.status } };
}

impl AtomicGroupBuilder {
    ghost use Rattle.std.specs.Prelude.{◌≡◌, Some, None, OnOk, OnErr};
    ghost use Rattle.raft_log_record_frames.specs.declared.status.AtomicGroupStatus.TheVariants.{
      Begin,
      Middle,
      End,
    };
    ghost use Rattle.raft_log_record_frames.specs.declared.marking.Marking.TheVariants.{Unmarked};
    ghost use Rattle.raft_log_record_frames.specs.Marking.{marking_of_items};
    ghost use Rattle.raft_log_record_frames.specs.Meaning.{BecomesPart};
    ghost use Rattle.raft_log_record_batches.specs.declared.log_batch.BatchState.TheVariants.{Filling};
    ghost use Rattle.raft_log_record_batches.specs.AtomicGroup.{IsGroupOpen, Marks};
    ghost use Rattle.raft_log_record_batches.specs.Batch.{Becomes, with_item};

    /// A builder for the group with this number, which has not begun.
    pub fn with_id(id: u64) -> Self
        ensures { result ≡ record { id = id; status = None } }
    {
        AtomicGroupBuilder { id, status: None }
    }

    /// The last mark that was added.
    pub fn status(&self) -> Option<AtomicGroupStatus>
        ensures { result ≡ self.now.status }
    {
        self.status
    }

    /// Adds a mark of the group to a batch that has none. If it fails, no item changes.
    fn mark(
        &mut self,
        alloc: Global,
        batch: &mut LogBatch,
        status: AtomicGroupStatus,
    ) -> Result<(), AllocError>
        requires filling { batch.old.state ≡ Filling }
        requires unmarked { marking_of_items batch.old.items ≡ Unmarked }
        ensures ok { OnOk result (Marks self.old self.new batch.old batch.new status) }
        ensures part { OnOk result (BecomesPart batch.old.items batch.new.items self.old.id status) }
        ensures err { OnErr result ((self.new ≡ self.old) × Becomes batch.old batch.new) }
        ensures buffer { batch.new.buffer ≡ batch.old.buffer }
    {
        let value = mark_value(alloc, self.id, status)?;
        batch.put_mark(alloc, value.as_slice())?;
        self.status = Some(status);
        Ok(())
    }

    /// Marks the first batch of a group that hasn't begun.
    pub fn begin(&mut self, alloc: Global, batch: &mut LogBatch) -> Result<(), AllocError>
        requires filling { batch.old.state ≡ Filling }
        requires unmarked { marking_of_items batch.old.items ≡ Unmarked }
        requires unbegun { self.old.status ≡ None }
        ensures ok { OnOk result (Marks self.old self.new batch.old batch.new Begin) }
        ensures part { OnOk result (BecomesPart batch.old.items batch.new.items self.old.id Begin) }
        ensures err { OnErr result ((self.new ≡ self.old) × Becomes batch.old batch.new) }
        ensures buffer { batch.new.buffer ≡ batch.old.buffer }
    {
        self.mark(alloc, batch, AtomicGroupStatus::Begin)
    }

    /// Marks a batch between the first and the last. The group must have begun and not ended.
    pub fn add(&mut self, alloc: Global, batch: &mut LogBatch) -> Result<(), AllocError>
        requires filling { batch.old.state ≡ Filling }
        requires unmarked { marking_of_items batch.old.items ≡ Unmarked }
        requires open { IsGroupOpen self.old.status }
        ensures ok { OnOk result (Marks self.old self.new batch.old batch.new Middle) }
        ensures part { OnOk result (BecomesPart batch.old.items batch.new.items self.old.id Middle) }
        ensures err { OnErr result ((self.new ≡ self.old) × Becomes batch.old batch.new) }
        ensures buffer { batch.new.buffer ≡ batch.old.buffer }
    {
        self.mark(alloc, batch, AtomicGroupStatus::Middle)
    }

    /// Marks the last batch. The group must have begun and not ended.
    pub fn end(&mut self, alloc: Global, batch: &mut LogBatch) -> Result<(), AllocError>
        requires filling { batch.old.state ≡ Filling }
        requires unmarked { marking_of_items batch.old.items ≡ Unmarked }
        requires open { IsGroupOpen self.old.status }
        ensures ok { OnOk result (Marks self.old self.new batch.old batch.new End) }
        ensures part { OnOk result (BecomesPart batch.old.items batch.new.items self.old.id End) }
        ensures err { OnErr result ((self.new ≡ self.old) × Becomes batch.old batch.new) }
        ensures buffer { batch.new.buffer ≡ batch.old.buffer }
    {
        self.mark(alloc, batch, AtomicGroupStatus::End)
    }
}
