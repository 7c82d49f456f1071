//! The command lines of the program `raft_log_ctl`: which log an operator names, and what to do with it.
//!
//! [`Command::parse`] reads the words after the program's name.
#![tactic(auto)]

pub mod command;
pub mod place;

pub use command::{Command, Task, USAGE, Unread};
pub use place::Place;
