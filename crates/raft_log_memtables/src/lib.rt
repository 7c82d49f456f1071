//! The memtables of all groups, and how they are rebuilt from segments of the log. The laws in `views` tie each change
//! of them to a change of the view in `raft_log_machine_laws`.
#![tactic(auto)]

mod group_table;
pub mod laws;
pub mod mem_tables;
pub mod views;

pub use group_table::GroupTable;
pub use mem_tables::MemTables;
