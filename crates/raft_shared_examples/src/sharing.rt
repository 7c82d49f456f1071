//! A store of voters that two threads share, and that is then settled.

ghost use Rattle.std.specs.Prelude.{◌≡◌, ◌↔◌, ◌++◌, IfOk};
ghost use Rattle.std.specs.Thread.{IsSync};
ghost use Rattle.raft_voter.specs.Rounds.{World};
ghost use Rattle.raft_voter.specs.Service.{IsOpenAt};
ghost use Rattle.raft_voter_history.specs.Names.{id_of};
ghost use Rattle.raft_voter_shared.specs.Receipts.{AllRight};
ghost use Rattle.raft_shared_examples.specs.Seats.{place_in, receipts_in, AreServed, IsReceiptOf};
ghost use Rattle.raft_shared_examples.specs.Sharing.{IsSettledFrom, IsSettledWhole};

use crate::seats::{Served, add_receipt, serve_round};
use raft_log_engine::Error;
use raft_voter::{Request, Round, RoundService};
use raft_voter_recovery::Unread;
use raft_voter_shared_log::{FreshHistory, Opening, Seat, SharedStore};
use std::alloc::{AllocError, AllocFailed, Global};
use std::marker::Brand;
use std::sync::Wait;
use std::sync::ledger::Blank;
use std::thread;
use std::thread::Threads;

/// Why a shared store didn't live its life to the end.
#[derive(Drop)]
pub enum Ended {
    /// Opening the store failed, or reading its voters.
    Unread(Unread),
    /// The store couldn't be settled.
    Unsettled,
    /// The close of its log failed.
    Close(Error),
    /// Out of memory.
    Memory,
}

impl From<AllocError> for Ended {
    fn from(_refused: AllocError) -> Ended {
        Ended::Memory
    }
}

impl<T: Drop> From<AllocFailed<T>> for Ended {
    fn from(_refused: AllocFailed<T>) -> Ended {
        Ended::Memory
    }
}

/// A settled store, with the records of all its rounds, and the places of two of them.
#[derive(Drop)]
pub struct Settled<S> {
    /// The store.
    pub store: S,
    /// The records of all rounds, in the order in which they were served.
    pub journal: Vec<Round>,
    /// The place of the first thread's record, if its round got replies.
    pub first: Option<usize>,
    /// The place of the second thread's record, if its round got replies.
    pub second: Option<usize>,
}

/// Two threads share a store of voters, and each serves a round. Then the store is settled.
pub fn share_store<R: Threads + Wait + Send + Sync, S: RoundService<R> + Send + Sync + Drop>(
    rt: &R,
    alloc: Global,
    store: S,
    one: &[(u64, Request)],
    other: &[(u64, Request)],
) -> Result<Settled<S>, Ended>
    ensures settled { IfOk result (λ settled.
        IsSettledFrom S.service store settled.store settled.journal.items) }
    ensures served { IfOk result (λ settled.
        AreServed settled.journal.items one.now settled.first other.now settled.second) }
{
    let fresh = FreshHistory::new(alloc)?;
    share_among::<R, S, Brand>(rt, alloc, store, Blank::new(1024), fresh, one, other)
}

/// The same for a named opening, which serves exactly the voters that the store serves.
fn share_among<
    R: Threads + Wait + Send + Sync,
    S: RoundService<R> + Send + Sync + Drop,
    L: Opening + Send + Sync,
>(
    rt: &R,
    alloc: Global,
    store: S,
    blank: Blank,
    fresh: FreshHistory,
    one: &[(u64, Request)],
    other: &[(u64, Request)],
) -> Result<Settled<S>, Ended>
    requires name { (blank.name ≡ L.name) × (id_of fresh ≡ L.history) }
    requires parts { (blank.parts ≡ 1024) × (L.parts ≡ 1024) × (L.all ≡ 1024) }
    requires served { (W : World) → L.served W ↔ ∥ IsOpenAt S.service store W ∥₁ }
    requires failed { L.had_failed ≡ S.service.is_failed store }
    ensures settled { IfOk result (λ settled.
        IsSettledFrom S.service store settled.store settled.journal.items) }
    ensures served { IfOk result (λ settled.
        AreServed settled.journal.items one.now settled.first other.now settled.second) }
{
    let (shared, mut first): (SharedStore<R, S, L>, Seat<L>) = SharedStore::with_journal(
        alloc, store, blank, fresh, 1024,
    );
    let Some(second) = first.split() else {
        return Err(Ended::Unsettled);
    };
    let (one, other) = serve_both(rt, &shared, first, second, one, other);
    settle_both(rt, alloc, shared, one, other)
}

/// Two threads serve a round each, at seats of their own.
fn serve_both<
    R: Threads + Wait + Send + Sync,
    S: RoundService<R> + Send + Sync + Drop,
    L: Opening + Send + Sync,
>(
    rt: &R,
    shared: &SharedStore<R, S, L>,
    first: Seat<L>,
    second: Seat<L>,
    one: &[(u64, Request)],
    other: &[(u64, Request)],
) -> (Served<L>, Served<L>)
    ensures one { IsReceiptOf one.now result.0.answer }
    ensures other { IsReceiptOf other.now result.1.answer }
{
    thread::join(
        rt,
        move || -> Served<L>
            requires { IsSync R.row }
            ensures { IsReceiptOf one.entry.now result.answer }
        { serve_round(rt, shared, first, one) },
        move || -> Served<L>
            requires { IsSync R.row }
            ensures { IsReceiptOf other.entry.now result.answer }
        { serve_round(rt, shared, second, other) },
    )
}

/// Settles a store, given both seats. Fails if the journal doesn't have all records any more.
fn settle_both<R: Wait, S: RoundService<R> + Drop, L: Opening>(
    rt: &R,
    alloc: Global,
    shared: SharedStore<R, S, L>,
    one: Served<L>,
    other: Served<L>,
) -> Result<Settled<S>, Ended>
    requires { L.all ≡ L.parts }
    ensures settled { IfOk result (λ whole.
        IsSettledWhole S.service L.served whole.store whole.journal.items) }
    ensures right { IfOk result (λ whole.
        AllRight 0 whole.journal.items (receipts_in one.answer ++ receipts_in other.answer)) }
    ensures first { IfOk result (λ whole. whole.first ≡ place_in one.answer) }
    ensures second { IfOk result (λ whole. whole.second ≡ place_in other.answer) }
{
    let mut seats = Vec::new(alloc);
    seats.push(one.seat)?;
    seats.push(other.seat)?;
    let (receipts, first) = add_receipt(Vec::new(alloc), one.answer)?;
    let (receipts, second) = add_receipt(receipts, other.answer)?;
    let taken = shared.none_taken(rt);
    match shared.settle(rt, seats, receipts, taken) {
        Ok(settled) if settled.first == 0 => Ok(Settled {
            store: settled.store,
            journal: settled.journal,
            first,
            second,
        }),
        _ => Err(Ended::Unsettled),
    }
}
