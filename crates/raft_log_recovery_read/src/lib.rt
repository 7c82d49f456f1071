//! Reads the log files that were found while no engine has them open. Finds the records of each, where the last good
//! one ends, and what is wrong after it. The files of a queue are segments, which workers read side by side.
#![tactic(auto)]

mod behind;
mod damage;
pub mod file_ending;
mod foreign;
pub mod found_file;
pub mod laws;
mod naming;
pub mod queue_segments;
pub mod reading;
mod steps;
mod taking;
pub mod tolerance;

pub use file_ending::FileEnding;
pub use found_file::{FoundFile, ListedFile};
pub use queue_segments::QueueSegments;
pub use reading::read_file;
pub use tolerance::{read_found, tolerates};
