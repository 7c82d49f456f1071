//! Rounds that the store serves together.
ghost use Rattle.std.specs.Prelude.{◌≡◌, ◌+◌, ◌<◌, ◌≤◌, ◌==◌, ◌++◌, ◌∷◌, [], true, length, map, sum_by, vec_capacity, vec_len, IfErr, OnOk};
ghost use Rattle.std.specs.List.{flat_map};
ghost use Rattle.raft_voter_rounds.specs.Noting.{may_join};

use crate::done::Done;
use crate::job::{Job, Part};
use crate::opening::Opening;
use raft_voter::{MAX_ROUND_REQUESTS, Reply, Request};
use std::alloc::{AllocError, Global};

/// Rounds that the store serves together, as one round with one sync. Also the memory for their replies and answers.
/// They have at most 4,096 requests, or there is only one round.
#[derive(Drop)]
pub struct MergedRound<L: Opening> {
    /// The requests of all rounds, in order.
    pub asked: Vec<(u64, Request)>,
    /// The rounds.
    pub parts: Vec<Part<L>>,
    /// Room for the replies in the records.
    pub noted: Vec<Reply>,
    /// Room for the replies to the callers.
    pub handed: Vec<Reply>,
    /// Room for the answers.
    pub done: Vec<Done<L>>,
    ghost counted: { sum_by (λ part. part.ticket.count) parts.items ≡ length asked.items },
    ghost each: { flat_map (λ part. part.requests) parts.items ≡ asked.items },
    ghost fits: { 4096 < length asked.items → length parts.items ≡ 1 },
    ghost empty: { (noted.items ≡ []) × (handed.items ≡ []) × (done.items ≡ []) },
    ghost room: { (length asked.items ≤ vec_capacity noted) × (length asked.items ≤ vec_capacity handed)
        × (length parts.items ≤ vec_capacity done) },
}

impl<L: Opening> MergedRound<L> {
    /// Returns one without rounds. Allocates nothing.
    pub fn new(alloc: Global) -> MergedRound<L>
        ensures { (result.parts.items ≡ []) × (result.asked.items ≡ []) }
    {
        MergedRound {
            asked: Vec::new(alloc),
            parts: Vec::new(alloc),
            noted: Vec::new(alloc),
            handed: Vec::new(alloc),
            done: Vec::new(alloc),
        }
    }

    /// Whether it has no rounds.
    pub fn is_empty(&self) -> bool
        ensures { result ≡ (length self.now.parts.items == 0) }
    {
        self.parts.is_empty()
    }

    /// Whether a round of `count` requests may be added: there is no other round, or all have at most 4,096 requests
    /// together.
    pub fn has_room(&self, count: usize) -> bool
        ensures { result ≡ may_join (length self.now.parts.items) (length self.now.asked.items) count }
    {
        self.parts.is_empty()
            || (count <= MAX_ROUND_REQUESTS && self.asked.len() <= MAX_ROUND_REQUESTS - count)
    }

    /// Adds a round. If memory runs out, nothing changes and the round is returned.
    #[tactic(auto, using(crate::proofs::Noted::each_more))]
    pub fn add(&mut self, job: Job<L>) -> Result<(), Job<L>>
        requires { may_join (length self.old.parts.items) (length self.old.asked.items) job.ticket.count ≡ true }
        ensures asked { OnOk result (self.new.asked.items ≡ self.old.asked.items ++ job.draft.requests.items) }
        ensures parts { OnOk result (map (λ part. part.ticket) self.new.parts.items
            ≡ map (λ part. part.ticket) self.old.parts.items ++ job.ticket ∷ []) }
        ensures err { IfErr result (λ back. (back.ticket ≡ job.ticket)
            × (self.new.asked.items ≡ self.old.asked.items) × (self.new.parts.items ≡ self.old.parts.items)) }
    {
        let Ok(()) = self.reserve(job.ticket.count) else {
            return Err(job);
        };
        let MergedRound {
            asked,
            parts,
            noted: _,
            handed: _,
            done: _,
        } = self;
        parts.push_reserved(job.join(asked));
        Ok(())
    }

    /// Makes room for another round of so many requests.
    fn reserve(&mut self, count: usize) -> Result<(), AllocError>
        ensures asked { self.new.asked.items ≡ self.old.asked.items }
        ensures parts { self.new.parts.items ≡ self.old.parts.items }
        ensures requests { OnOk result (length self.old.asked.items + count ≤ vec_capacity self.new.asked) }
        ensures rounds { OnOk result (length self.old.parts.items + 1 ≤ vec_capacity self.new.parts) }
        ensures replies { OnOk result ((length self.old.asked.items + count ≤ vec_capacity self.new.noted)
            × (length self.old.asked.items + count ≤ vec_capacity self.new.handed)) }
        ensures answers { OnOk result (length self.old.parts.items + 1 ≤ vec_capacity self.new.done) }
    {
        let MergedRound {
            asked,
            parts,
            noted,
            handed,
            done,
        } = self;
        asked.reserve(count)?;
        parts.reserve(1)?;
        noted.reserve(asked.len() + count)?;
        handed.reserve(asked.len() + count)?;
        done.reserve(parts.len() + 1)
    }
}
