//! Plays events on a store of voters and its disk, one by one, and explains the replies.
#![tactic(auto)]

pub mod alike;
pub mod causes;
mod disk;
mod event;
pub mod examples;
mod faults;
pub mod laws;
mod notes;
mod opening;
mod places;
pub mod readers;
mod report;
pub mod rounds;
mod serving;
mod storage;
mod store;
mod world;

pub use disk::VoterDisk;
pub use event::{Event, Left};
pub use faults::{Fault, Purge};
pub use opening::Opened;
pub use report::WorldReport;
pub use serving::Served;
pub use storage::Storage;
pub use store::VoterStorage;
pub use world::{World, run_world};
