//! A purge in bounded steps. Each step syncs Append, and then does one of these:
//! - begins a compaction of Rewrite, continues it by a few groups, or ends it
//! - purges Append, and copies only a few of the groups that a whole purge would copy
//!
//! A budget says how many groups these are: the fewest whose entries, keys and values have so many bytes.
//!
//! The map is kept, whether a step succeeds or fails. After `Failed` the engine has failed, and its files can be opened
//! with this map.
#![tactic(auto)]

pub mod compacting;
pub mod laws;
pub mod part;
pub mod purging;
pub mod step;
pub mod weights;

pub use purging::purge_some;
pub use raft_log_purge;
pub use step::PurgeStep;
