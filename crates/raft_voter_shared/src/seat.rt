//! A thread's seat at a shared store.
ghost use Rattle.std.specs.Prelude.{◌≡◌, ◌+◌, ◌/◌, ◌<◌, ◌≤◌, ◌^◌, [], sum_by, None, IfSome};
ghost use Rattle.std.specs.Bool.{Decides};

use raft_voter_rounds::Opening;
use std::sync::ledger::Share;

/// A seat at a shared store: some of the parts of the store's ledger, and how many of its rounds are in the journal.
/// Its number is that of its first part, so no two seats have the same number.
#[derive(Drop)]
pub struct Seat<L: Opening> {
    pub(crate) share: Share<L>,
    pub(crate) number: u64,
    pub(crate) parts: u64,
    pub(crate) turn: u64,
    ghost held: { share.parts ≡ parts },
    ghost counted: { share.amount ≡ turn },
    ghost some: { 0 < parts },
    ghost within: { number + parts ≤ L.all },
    ghost fits: { L.all < 2 ^ 64 },
}

impl<L: Opening> Seat<L> {
    /// Returns the seat with all parts of a ledger.
    pub(crate) fn first(share: Share<L>, parts: u64) -> Seat<L>
        requires held { (share.parts ≡ parts) × (L.all ≡ parts) }
        requires some { 0 < parts }
        requires unused { share.amount ≡ 0 }
        ensures number { result.number ≡ 0 }
        ensures parts { result.parts ≡ parts }
        ensures turn { result.turn ≡ 0 }
    {
        Seat {
            share,
            number: 0,
            parts,
            turn: 0,
        }
    }

    /// Returns the number of the seat.
    pub fn number(&self) -> u64
        ensures { result ≡ self.now.number }
    {
        self.number
    }

    /// Returns how many parts of the ledger it has.
    pub fn parts(&self) -> u64
        ensures { result ≡ self.now.parts }
    {
        self.parts
    }

    /// Returns how many of its rounds are in the journal.
    pub fn turn(&self) -> u64
        ensures { result ≡ self.now.turn }
    {
        self.turn
    }

    /// Splits off half of its parts, rounded down, as a seat of its own without rounds. Returns `None` if it has only
    /// one part; then nothing changes.
    pub fn split(&mut self) -> Option<Seat<L>>
        ensures parts { IfSome result (λ seat. seat.parts ≡ self.old.parts / 2) }
        ensures left { IfSome result (λ seat. self.new.parts + seat.parts ≡ self.old.parts) }
        ensures number { IfSome result (λ seat. seat.number ≡ self.old.number + self.new.parts) }
        ensures fresh { IfSome result (λ seat. seat.turn ≡ 0) }
        ensures none { result ≡ None → (self.new ≡ self.old) × (self.old.parts ≡ 1) }
        ensures same { (self.new.number ≡ self.old.number) × (self.new.turn ≡ self.old.turn) }
    {
        if self.parts == 1 {
            return None;
        }
        let half = self.parts / 2;
        let Seat {
            share,
            number,
            parts,
            turn: _,
        } = self;
        let given = share.split_off(half, 0);
        *parts -= half;
        Some(Seat {
            share: given,
            number: *number + *parts,
            parts: half,
            turn: 0,
        })
    }
}

/// Whether these seats together have this many parts.
pub(crate) fn have_all<L: Opening>(seats: &[Seat<L>], parts: u64) -> bool
    ensures { Decides result (sum_by (λ seat. seat.parts) seats.now ≡ parts) }
{
    match all_parts(seats) {
        Some(all) => all == parts,
        None => false,
    }
}

/// Returns how many parts these seats have together, or `None` if they are 2^64 or more.
fn all_parts<L: Opening>(seats: &[Seat<L>]) -> Option<u64>
    ensures some { IfSome result (λ parts. parts ≡ sum_by (λ seat. seat.parts) seats.now) }
    ensures none { result ≡ None → 2 ^ 64 ≤ sum_by (λ seat. seat.parts) seats.now }
{
    let mut parts: u64 = 0;
    for seat in seats {
        parts = parts.checked_add(seat.parts())?;
    }
    Some(parts)
}

/// Merges the shares of these seats. Returns `None` if there are no seats.
pub(crate) fn merged<L: Opening>(seats: Vec<Seat<L>>) -> Option<Share<L>>
    ensures parts { IfSome result (λ share. share.parts ≡ sum_by (λ seat. seat.parts) seats.items) }
    ensures amount { IfSome result (λ share. share.amount ≡ sum_by (λ seat. seat.turn) seats.items) }
    ensures none { result ≡ None → seats.items ≡ [] }
{
    let mut seats = seats;
    let mut whole = into_share(seats.pop()?);
    while let Some(seat) = seats.pop() {
        whole.merge(into_share(seat));
    }
    Some(whole)
}

/// Returns the share of a seat.
fn into_share<L: Opening>(seat: Seat<L>) -> Share<L>
    ensures parts { result.parts ≡ seat.parts }
    ensures amount { result.amount ≡ seat.turn }
{
    let Seat {
        share,
        number: _,
        parts: _,
        turn: _,
    } = seat;
    share
}
