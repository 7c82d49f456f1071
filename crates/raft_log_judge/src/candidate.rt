//! A log that may explain the answers so far.
ghost use Rattle.std.specs.Prelude.{◌≡◌, ◌≤◌, [], ◌∷◌, ◌++◌, IfOk, length, map};
ghost use Rattle.raft_log_world.specs.Model.ModelLog.{left, running};

use crate::change::{Batch, copied_batches};
use crate::outcome::Standing;
use raft_lists::Items;
use std::alloc::{AllocError, Global};

/// A log that may explain the answers so far.
#[derive(Drop)]
pub struct Candidate {
    /// Whether an engine has it open.
    pub standing: Standing,
    /// The batches that were written, in order.
    pub batches: Items<Batch>,
    /// How many of the first ones are durable. The others are pending.
    pub durable: usize,
    ghost within: { durable ≤ length batches },
}

impl Candidate {
    ghost use Rattle.raft_log_judge.specs.Candidates.{durable_of, log_of, pending_of, turned};
    ghost use Rattle.raft_log_judge.specs.Changes.{says_of};
    ghost use Rattle.raft_log_judge.specs.Judging.{no_contents};

    /// The empty log.
    pub fn empty(alloc: Global) -> Candidate
        ensures { log_of result ≡ left no_contents [] }
    {
        Candidate {
            standing: Standing::Closed,
            batches: Items::new(alloc),
            durable: 0,
        }
    }

    /// The log with another standing. If `settles` is true, all batches are durable.
    pub fn turned(self, standing: Standing, settles: bool) -> Candidate
        ensures { log_of result ≡ turned standing settles self }
    {
        let Candidate {
            standing: _before,
            batches,
            durable,
        } = self;
        let durable = if settles { batches.len() } else { durable };
        Candidate {
            standing,
            batches,
            durable,
        }
    }

    /// The log with one more pending batch. Fails only for lack of memory.
    pub fn added(self, batch: Batch) -> Result<Candidate, AllocError>
        ensures durable { IfOk result (λ more. durable_of more ≡ durable_of self) }
        ensures pending { IfOk result (λ more. pending_of more ≡ pending_of self ++ says_of batch ∷ []) }
    {
        let Candidate {
            standing,
            mut batches,
            durable,
        } = self;
        batches.push(batch)?;
        Ok(Candidate {
            standing,
            batches,
            durable,
        })
    }

    /// Copies the log. Fails only for lack of memory.
    pub fn copied(&self, alloc: Global) -> Result<Candidate, AllocError>
        ensures { IfOk result (λ copy. log_of copy ≡ log_of self.now) }
    {
        Ok(Candidate {
            standing: self.standing,
            batches: copied_batches(alloc, self.batches.as_slice())?,
            durable: self.durable,
        })
    }

    /// The log that an open finds if it loses all pending batches. Fails only for lack of memory.
    pub fn opened(&self, alloc: Global) -> Result<Candidate, AllocError>
        ensures { IfOk result (λ first. log_of first ≡ running (durable_of self.now) []) }
    {
        let batches = copied_batches(alloc, &self.batches.as_slice()[..self.durable])?;
        Ok(Candidate {
            standing: Standing::Running,
            batches,
            durable: self.durable,
        })
    }

    /// The pending batches.
    pub fn pending(&self) -> &[Batch]
        ensures { map says_of result.now ≡ pending_of self.now }
    {
        &self.batches.as_slice()[self.durable..]
    }
}
