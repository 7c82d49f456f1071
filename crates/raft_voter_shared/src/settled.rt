//! The results of settling a shared store.
use crate::failure::Failure;
use crate::seat::Seat;
use crate::unsettled::Unsettled;
use raft_voter::{Round, RoundService};
use raft_voter_rounds::{Opening, Receipt, Taken};

/// A shared store after it was settled.
#[derive(Drop)]
pub struct Settled<S> {
    /// The store.
    pub store: S,
    /// The place of the first record that the journal kept, counted from 0. Without a journal it is the number of all
    /// records.
    pub first: usize,
    /// The records that it kept: the rounds that the store served or cut off, in order, with their outcomes.
    pub journal: Vec<Round>,
    /// How the store failed while it was shared, if it did.
    pub failure: Option<Failure>,
    /// How many rounds the store was given, each with one sync. Rounds that were served together count as one.
    pub calls: usize,
}

/// Why a shared store can't be settled.
#[derive(Clone, Copy, Debug, PartialEq, Eq)]
pub enum SettleCause {
    /// The seats together don't have all parts of the ledger: some seats are missing.
    SeatCount,
    /// A receipt is wrong at this place, the least such place. Its record isn't kept there, another receipt has the
    /// same place, or another receipt of its seat has a lower turn and a place that isn't lower.
    Receipt(usize),
}

/// A shared store that couldn't be settled, with all that the caller passed.
#[derive(Drop)]
pub struct SettleFault<R, S: RoundService<R>, L: Opening> {
    /// The cause.
    pub cause: SettleCause,
    /// The store, unchanged.
    pub store: Unsettled<R, S, L>,
    /// The records that were taken from the journal.
    pub taken: Taken<L>,
    /// The seats.
    pub seats: Vec<Seat<L>>,
    /// The receipts.
    pub receipts: Vec<Receipt<L>>,
}
