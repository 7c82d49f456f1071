//! The memtable of one group: where its entries and keys are stored.
//!
//! For a batch that is to be written, all calls that may need memory (`prepare_..`) are made before the write. What is
//! done after the write can't fail. Replays and merges allocate as they read.
#![tactic(auto)]

pub mod ends;
pub mod global_stats;
pub mod laws;
pub mod mem_table;

pub use ends::Ends;
pub use global_stats::GlobalStats;
pub use mem_table::MemTable;
pub use raft_log_memtable_index::{HeldValue, KeyMap};
