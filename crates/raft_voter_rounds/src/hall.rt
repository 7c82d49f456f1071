//! Where callers hand in rounds and fetch answers. Nobody holds its lock while the store works.
ghost use Rattle.std.specs.Prelude.{◌≡◌, ◌++◌, option_to_list, IfErr, IfSome};

use crate::done::{Done, fetch, has_answer};
use crate::job::Job;
use crate::merged_round::MergedRound;
use crate::opening::Opening;
use crate::ticket::Ticket;
use std::alloc::Global;
use std::collections::VecDeque;
use std::mem;

/// The rounds that wait, as a queue of merged rounds, and the answers that callers haven't fetched. One caller leads:
/// it has the store serve a merged round for all.
#[derive(Drop)]
pub struct Hall<L: Opening> {
    alloc: Global,
    rounds: VecDeque<MergedRound<L>>,
    done: Vec<Done<L>>,
    is_led: bool,
}

impl<L: Opening> Hall<L> {
    /// Returns a hall in which nobody waits.
    pub fn new(alloc: Global) -> Hall<L> {
        Hall {
            alloc,
            rounds: VecDeque::new(alloc),
            done: Vec::new(alloc),
            is_led: false,
        }
    }

    /// Puts a round at the end of the queue: into the last merged round if that has room, otherwise into a new one. If
    /// memory runs out, the round is returned.
    pub fn put(&mut self, job: Job<L>) -> Result<(), Job<L>>
        ensures { IfErr result (λ back. back.ticket ≡ job.ticket) }
    {
        if let Some(merged) = self.rounds.back_mut() {
            if merged.has_room(job.ticket.count) {
                return merged.add(job);
            }
        }
        self.put_alone(job)
    }

    /// Puts a round into a new merged round at the end of the queue. If memory runs out, the round is returned.
    fn put_alone(&mut self, job: Job<L>) -> Result<(), Job<L>>
        ensures { IfErr result (λ back. back.ticket ≡ job.ticket) }
    {
        let Ok(()) = self.rounds.reserve(1) else {
            return Err(job);
        };
        let mut merged = MergedRound::new(self.alloc);
        merged.add(job)?;
        self.rounds.push_back_reserved(merged);
        Ok(())
    }

    /// Whether the caller of this round has to wait: the answer to its round isn't there, and a caller leads.
    pub fn must_wait(&self, ticket: Ticket) -> bool {
        self.is_led && !has_answer(self.done.as_slice(), ticket)
    }

    /// Returns the answer to this round. Returns `None` if it isn't there; then the caller leads.
    pub fn fetch_or_lead(&mut self, ticket: Ticket) -> Option<Done<L>>
        ensures { IfSome result (λ done. done.ticket ≡ ticket) }
    {
        let answer = fetch(&mut self.done, ticket);
        if answer.is_none() {
            self.is_led = true;
        }
        answer
    }

    /// Removes the merged round that waited longest and returns it, or `None` if no round waits.
    pub fn next(&mut self) -> Option<MergedRound<L>>
        ensures { self.old.rounds.items ≡ option_to_list result ++ self.new.rounds.items }
    {
        self.rounds.pop_front()
    }

    /// Takes over these answers; if there is no memory for them, they stay in `done`. Nobody leads afterwards.
    pub fn take_over(&mut self, done: &mut Vec<Done<L>>)
        ensures { self.new.done.items ++ done.new.items ≡ self.old.done.items ++ done.old.items }
    {
        if self.done.is_empty() {
            mem::swap(&mut self.done, done);
        } else {
            let _moved = self.done.append(done);
        }
        self.is_led = false;
    }
}
