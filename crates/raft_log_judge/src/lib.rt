//! Decides whether the model log of `raft_log_world` explains the answers of a run.
#![tactic(auto)]

mod candidate;
mod change;
mod content;
mod judging;
mod outcome;
mod reading;
mod scanning;
mod stepping;

pub use change::{Batch, Change, ChangeKind};
pub use judging::judge_log;
