//! The states of workers that read the segments of a queue, and how they are merged. An open reads the segments in
//! parallel, and the result is one reading in order.
#![tactic(auto)]

pub mod context;
mod head;
pub mod laws;
pub mod machine;
mod open_groups;
mod part;
mod pieces;
mod settle;
mod written;

pub use context::MemTableRecoverContext;
pub use machine::MemTableRecoverContextFactory;
