//! The memtables of a log under one name: where each group's entries and values are stored, the tables of all groups,
//! and how workers rebuild them from segments.
//!
//! This crate only re-exports; the page of each part says what its calls promise.
#![tactic(auto)]

pub use raft_log_extents::Place;
pub use raft_log_memtable::{GlobalStats, MemTable};
pub use raft_log_memtable_index::{GroupFiles, HeldValue, KeyMap, Places};
pub use raft_log_memtables::{MemTables, MemTables as MemTableAccessor};
pub use raft_log_replay::{Factory, ReadSegments, ReplayMachine, ReplaySource, replay_segments};
pub use raft_log_replay_context::{MemTableRecoverContext, MemTableRecoverContextFactory};
