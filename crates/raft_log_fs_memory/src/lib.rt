//! A file system in memory, for tests and simulated crashes. Calls can be made to fail, whole or in part; it can stop
//! at any call; places of its files can be made unreadable. `remainder` returns what a crash leaves.
#![tactic(auto)]

pub mod memory;

pub use memory::MemoryFileSystem;
pub use raft_log_fs_state::{Piece, Remainder};
