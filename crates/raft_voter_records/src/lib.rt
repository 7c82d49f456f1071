//! What is written to a log for voters: a change of a voter as a batch, and its entries as they are stored.
//!
//! A voter's group has its state under one key, and its entries at their indexes. A change is one batch: new entries or
//! the command that deletes old ones, and then the new state.
#![tactic(auto)]

pub mod bounds;
mod change;
pub mod changes;
pub mod encoding;
pub mod examples;
mod stored_entries;
pub mod voters;

pub use change::{VOTER_KEY, fill_change};
pub use stored_entries::StoredEntries;
