//! What is wrong with the files of a log that nobody has open: gaps in their numbers, and damage. Each file is read as
//! an open reads a queue's last one, and nothing is changed.
//!
//! [`inspect_queue`] reads the files of a queue, hands their records to a machine, and returns what is wrong.
#![tactic(auto)]

pub mod damage;
pub mod fault;
pub mod gap;
pub mod inspecting;
mod listing;
mod newest;
mod one_file;
mod zeros;

pub use damage::Damage;
pub use fault::InspectFault;
pub use gap::Gap;
pub use inspecting::{QueueInspection, inspect_queue};
