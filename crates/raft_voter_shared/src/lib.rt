//! A store of voters that many threads share. Rounds that wait are served together, with one sync, and the journal of
//! the rounds is a legal history of voters.
#![tactic(auto)]

mod clashes;
mod desk;
mod failure;
pub mod laws;
mod maintenance;
mod receipts;
mod seat;
mod settled;
mod shared;
mod unsettled;

pub use failure::Failure;
pub use maintenance::{Listing, Maintenance};
pub use raft_voter_history::{FreshHistory, Named};
pub use raft_voter_rounds::{Opening, Receipt, SharedFault, Statement, Taken};
pub use seat::Seat;
pub use settled::{SettleCause, SettleFault, Settled};
pub use shared::SharedStore;
pub use unsettled::Unsettled;
