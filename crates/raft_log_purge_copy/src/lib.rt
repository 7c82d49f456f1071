//! The parts of a purge: they copy what is live in Append or Rewrite (`restating`) to Rewrite, and delete files.
//!
//! A part works on a log's pipes and the tables of its groups. Its contract holds for any contents that the log had
//! with no batch pending (`Represents`):
//! - `purge_all_stale` allows pending batches, which become part of the contents.
//! - `delete_stale_files` also requires that nothing is pending in Rewrite (`HoldsSettled`). For Append it requires
//!   that no tombstone is owed.
//! - `rewrite_groups`, `rewrite_group` and their parts require that no tombstone is owed (`OweNothing`).
//!
//! Under these premises the log keeps its contents, whether a part succeeds or fails. After `Failed` the engine has
//! failed, and an open of its files finds the contents.
#![tactic(auto)]

pub mod copies;
pub mod entries;
pub mod files;
pub mod groups;
pub mod keys;
pub mod laws;
pub mod marks;
pub mod parts;
pub mod pieces;
mod record;
pub mod records;
pub mod restating;
pub mod rewriting;
pub mod stale;
pub mod syncing;
pub mod taking;

pub use copies::write_copies;
pub use files::delete_stale_files;
pub use groups::{rewrite_group, rewrite_groups};
pub use keys::copy_keys;
pub use marks::{rewrite_marks, write_tombstones};
pub use raft_log_block_cache;
pub use rewriting::copy_entries;
pub use stale::purge_all_stale;
pub use syncing::sync_if_due;
