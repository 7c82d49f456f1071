//! Voters in memory, and a plain file in memory that keeps them.
//!
//! `PlainVoters` is a `RoundService`: it syncs the changes of a round before it returns the replies. Its `PlainFile`
//! keeps the voters while no store is open.
#![tactic(auto)]

mod file;
mod record;
mod store;

pub use file::PlainFile;
pub use record::OpenFault;
pub use store::{FileRefused, PlainVoters};
