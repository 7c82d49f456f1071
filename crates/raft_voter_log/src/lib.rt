//! A store of voters on a log in a file system in memory, as the store and the disk of a world. Laws say what it
//! serves, what a crash, a stop or a failed call leaves of it, and what an open finds of that.
#![tactic(auto)]

mod causes;
pub mod chance;
pub mod closed_stores;
mod faults;
mod files;
pub mod forks;
pub mod kept;
pub mod logs;
pub mod opens;
pub mod plain;
pub mod purges;
pub mod reuse;
pub mod sessions;
pub mod store_causes;
pub mod store_workers;
mod voters;
pub mod workers;

pub use files::LogFiles;
pub use raft_voter_store;
pub use voters::LogVoters;
