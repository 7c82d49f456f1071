//! The engine of a log, over the file system in memory, as a log of `raft_log_world`. That is what its calls return,
//! what a crash leaves of it, and what an open finds of that.
#![tactic(auto)]

mod calls;
mod faults;
mod files;
pub mod laws;
mod ranges;

pub use files::{ClosedLog, OpenLog};
