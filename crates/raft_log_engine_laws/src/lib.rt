//! What an engine shows, and what is true of it. The laws say:
//! - a call on its pipes and tables is a step of its log (`calls`)
//! - each part of a purge keeps the map, whether it succeeds or fails (`purges`)
//! - it does so also while an atomic group of copies is open (`groups`)
//!
//! Each public function here is a law over the definitions of `specs/`: it does nothing, and its contract is what is
//! proved.
#![tactic(auto)]

pub mod calls;
pub mod groups;
pub mod purges;

pub use raft_log_block_cache;
