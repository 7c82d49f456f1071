//! Callers of an engine across a crash: what succeeded before the crash is there after it, whatever the crash left.
#![tactic(auto)]

pub mod batches;
pub mod changing;
pub mod copies;
pub mod crashing;
pub mod ending;
pub mod laws;
pub mod lives;
pub mod opening;
pub mod purging;
pub mod reopening;
pub mod saving;
pub mod serving;
pub mod unsynced;
pub mod voting;
