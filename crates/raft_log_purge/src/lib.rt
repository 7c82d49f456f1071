//! Whole purges, put together from their parts. Each works on a log's pipes and the tables of its groups.
//!
//! The map is kept, whether a purge succeeds or fails. After `Failed` the engine has failed, and its files can be
//! opened with this map. `purge_append` and `rewrite_rewrite_queue` keep it only if nothing of Append is pending. The
//! others sync Append first.
#![tactic(auto)]

pub mod append;
pub mod bounds;
pub mod counted;
pub mod expired;
pub mod expired_files;
pub mod garbage;
pub mod laws;
pub mod rewrite_queue;

pub use counted::{purge_and_count, rewrite_and_count, rewrite_append_and_count};
pub use expired::{Purged, purge_append};
pub use expired_files::PurgeCounts;
pub use raft_log_purge_copy;
pub use raft_log_purge_copy::raft_log_block_cache;
pub use rewrite_queue::rewrite_rewrite_queue;
