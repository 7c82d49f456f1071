//! Where callers hand in batches and fetch answers. Nobody holds its lock while the engine works.
ghost use Rattle.std.specs.Prelude.{◌≡◌, ◌++◌, ◌∷◌, [], length, IfErr, IfOk, IfSome};
ghost use Rattle.raft_log_world.specs.declared.event.Call.TheVariants.{Write};
ghost use Rattle.raft_log_shared.specs.Requests.{asked};

use crate::ask::Ask;
use crate::done::{Done, fetch, has_answer};
use crate::history::History;
use crate::job::Job;
use crate::keeper::Keeper;
use crate::opening::{Asks, Opening};
use crate::rule::Noting;
use crate::work::Work;
use raft_log_record_batches::LogBatch;
use raft_log_world::Answer;
use std::alloc::Global;
use std::marker::Brand;
use std::mem;
use std::sync::Wait;

/// The batches that wait, and the answers that callers haven't fetched. One caller leads: it has the engine write all
/// batches that wait. Also the history of the requests, and how many there were.
#[derive(Drop)]
pub struct Hall<L: Opening> {
    alloc: Global,
    asks: Keeper<Asks<L>>,
    count: u64,
    work: Work<L>,
    done: Vec<Done<L>>,
    is_led: bool,
    ghost counted: { count ≡ length asks },
}

impl<L: Opening> Hall<L> {
    /// Returns a hall in which nobody waits, given the empty history of the requests.
    pub fn new(alloc: Global, asks: Keeper<Asks<L>>) -> Hall<L>
        requires { asks ≡ [] }
    {
        Hall {
            alloc,
            asks,
            count: 0,
            work: Work::new(alloc),
            done: Vec::new(alloc),
            is_led: false,
        }
    }

    /// Hands in a batch, and returns the name of the request. If memory or numbers run out, the batch is returned.
    pub fn put<R: Wait>(
        &mut self,
        rt: &R,
        history: &History<Asks<L>>,
        batch: LogBatch,
        sync: bool,
    ) -> Result<Ask<L>, LogBatch>
        ensures ok { IfOk result (λ ask. (ask.batch ≡ batch) × (ask.sync ≡ sync)) }
        ensures err { IfErr result (λ back. back ≡ batch) }
    {
        if self.count == u64::MAX {
            return Err(batch);
        }
        let Ok(()) = self.work.reserve() else {
            return Err(batch);
        };
        let Hall {
            alloc: _,
            asks,
            count,
            work,
            done: _,
            is_led: _,
        } = self;
        let mut ask = noted_ask::<Brand, L, R>(rt, history, asks, *count, &batch, sync);
        *count += 1;
        work.push(Job {
            ask: ask.again(history),
            batch,
            sync,
        });
        Ok(ask)
    }

    /// Whether the caller of the request with this number has to wait: the answer isn't there, and a caller leads.
    pub fn must_wait(&self, number: u64) -> bool {
        self.is_led && !has_answer(self.done.as_slice(), number)
    }

    /// Returns the answer to the request with this number. Returns `None` if it isn't there; then the caller leads.
    pub fn fetch_or_lead(&mut self, number: u64) -> Option<Done<L>>
        ensures { IfSome result (λ done. done.ask.number ≡ number) }
    {
        let answer = fetch(&mut self.done, number);
        if answer.is_none() {
            self.is_led = true;
        }
        answer
    }

    /// Takes all batches that wait, or returns `None` if there are none.
    pub fn next(&mut self) -> Option<Work<L>>
        ensures { IfSome result (λ work. work.jobs.items ≡ self.old.work.jobs.items) }
    {
        if self.work.is_empty() {
            return None;
        }
        Some(mem::replace(&mut self.work, Work::new(self.alloc)))
    }

    /// Takes over these answers; if there is no memory for them, they stay in `done`. Nobody leads afterwards.
    pub fn take_over(&mut self, done: &mut Vec<Done<L>>)
        ensures { self.new.done.items ++ done.new.items ≡ self.old.done.items ++ done.old.items }
    {
        if self.done.is_empty() {
            mem::swap(&mut self.done, done);
        } else {
            let _moved = self.done.append(done);
        }
        self.is_led = false;
    }

    /// Compares two requests of one number with the history of the requests: they are the same.
    pub fn compare<R: Wait>(
        &mut self,
        rt: &R,
        history: &History<Asks<L>>,
        ask: Ask<L>,
        other: &mut Ask<L>,
    )
        requires { other.old.number ≡ ask.number }
        ensures same { other.new ≡ other.old }
        ensures equal { other.old ≡ ask }
    {
        let twin = other.again(history);
        twin.find(rt, history, &mut self.asks);
        ask.find(rt, history, &mut self.asks);
    }
}

/// Adds the record of a request for this batch to the history of the requests, and returns its name. `number` is how
/// many requests there were before.
fn noted_ask<X: Noting, L: Opening, R: Wait>(
    rt: &R,
    history: &History<Asks<L>>,
    asks: &mut Keeper<Asks<L>>,
    number: u64,
    _batch: &LogBatch,
    _sync: bool,
) -> Ask<L>
    requires call { X.call ≡ Write _batch.now _sync }
    requires number { number ≡ length asks.old }
    ensures noted { asks.new ≡ asks.old ++ asked _batch.now _sync ∷ [] }
    ensures ask { result ≡ record { number = number; batch = _batch.now; sync = _sync } }
{
    let claim = asks.note::<X, R>(rt, history, &Answer::Idle);
    Ask::new(number, claim)
}
