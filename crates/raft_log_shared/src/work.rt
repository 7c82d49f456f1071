//! Batches that wait, and the memory that their answers need.
ghost use Rattle.std.specs.Prelude.{◌≡◌, ◌+◌, ◌≤◌, ◌==◌, ◌++◌, ◌∷◌, [], length, vec_capacity, vec_len, OnOk};

use crate::done::Done;
use crate::job::{Job, Part};
use crate::opening::Opening;
use std::alloc::{AllocError, Global};

/// The batches that wait, in order, and room for what becomes of them.
#[derive(Drop)]
pub struct Work<L: Opening> {
    /// The batches.
    pub jobs: Vec<Job<L>>,
    /// Room for the batches after their writes.
    pub parts: Vec<Part<L>>,
    /// Room for the answers.
    pub done: Vec<Done<L>>,
    ghost empty: { (parts.items ≡ []) × (done.items ≡ []) },
    ghost room: { (length jobs.items ≤ vec_capacity parts) × (length jobs.items ≤ vec_capacity done) },
}

impl<L: Opening> Work<L> {
    /// Returns one without batches. Allocates nothing.
    pub fn new(alloc: Global) -> Work<L>
        ensures { result.jobs.items ≡ [] }
    {
        Work {
            jobs: Vec::new(alloc),
            parts: Vec::new(alloc),
            done: Vec::new(alloc),
        }
    }

    /// Whether no batch waits.
    pub fn is_empty(&self) -> bool
        ensures { result ≡ (length self.now.jobs.items == 0) }
    {
        self.jobs.is_empty()
    }

    /// Makes room for another batch.
    pub fn reserve(&mut self) -> Result<(), AllocError>
        ensures jobs { self.new.jobs.items ≡ self.old.jobs.items }
        ensures room { OnOk result ((length self.old.jobs.items + 1 ≤ vec_capacity self.new.jobs)
            × (length self.old.jobs.items + 1 ≤ vec_capacity self.new.parts)
            × (length self.old.jobs.items + 1 ≤ vec_capacity self.new.done)) }
    {
        let Work { jobs, parts, done } = self;
        jobs.reserve(1)?;
        parts.reserve(jobs.len() + 1)?;
        done.reserve(jobs.len() + 1)
    }

    /// Adds a batch at the end. There must be room for it.
    pub fn push(&mut self, job: Job<L>)
        requires jobs { length self.old.jobs.items + 1 ≤ vec_capacity self.old.jobs }
        requires parts { length self.old.jobs.items + 1 ≤ vec_capacity self.old.parts }
        requires done { length self.old.jobs.items + 1 ≤ vec_capacity self.old.done }
        ensures { self.new.jobs.items ≡ self.old.jobs.items ++ job ∷ [] }
    {
        self.jobs.push_reserved(job);
    }
}
