//! Plays events on a log, one by one, and explains the answers by a model log. In a crash, the model log loses at most
//! its last unsynced batches.
#![tactic(auto)]

mod event;
mod files;
pub mod laws;
pub mod questions;
mod report;
mod storage;
mod world;

pub use event::{Answer, Call, Event, Fault, Purge};
pub use files::LogFiles;
pub use report::LogReport;
pub use storage::{Played, Storage};
pub use world::{World, run_log};
