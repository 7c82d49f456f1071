//! A store of voters on a log that many threads share. It has what [`SharedStore`] requires of a store, over a log in
//! any file system, including that of a real directory.
#![tactic(auto)]

mod forced;
pub mod laws;
mod service;
mod store;

pub use forced::ForcedPurge;
pub use raft_voter_shared::{
    Failure, FreshHistory, Listing, Maintenance, Named, Opening, Receipt, Seat, SettleCause,
    SettleFault, Settled, SharedFault, SharedStore, Taken, Unsettled,
};
pub use store::LogStore;
