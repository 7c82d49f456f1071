//! Scans and recovers a log's directories that no engine has open. Workers read both queues, and nothing is truncated
//! before all files could be read. Then the files that the settings want are made for later records.
#![tactic(auto)]

pub mod builder;
mod clearing;
mod cut_log;
pub mod cutting;
mod dropping;
mod filling;
mod finishing;
mod making;
pub mod paths;
pub mod reading;
pub mod readying;
pub mod recovered_queue;
pub mod syncing;
mod unaligned;

pub use builder::DualPipesBuilder;
pub use reading::recover_files;
pub use readying::ready_reserved;
pub use recovered_queue::RecoveredQueue;
pub use syncing::sync_files;
