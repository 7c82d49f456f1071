//! What an operator does with a log that nobody has open: list its items, check it for damage, gaps and holes, copy it,
//! count what it holds, purge it, and remove its padding.
//!
//! [`Command::parse`] parses a command. [`run`] does a task over a borrowed file system, and [`purge`] purges a log
//! over one that it owns.
#![tactic(auto)]

mod checking;
mod copying;
mod dumping;
mod fault;
mod forking;
mod found_file;
mod inspection;
mod purging;
mod running;
mod settings;
mod sizes;
mod statistics;
pub mod text;
mod unpadding;

pub use dumping::dump;
pub use fault::{CommandFault, Outcome};
pub use purging::{Purged, purge};
pub use raft_log_command_line::{Command, Place, Task, USAGE, Unread};
pub use running::run;
