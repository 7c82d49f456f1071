//! The log store: writes and syncs batches of many Raft groups, and reads back what they contain.
//!
//! [`LogEngine`] is generic in the pipes that keep its log ([`PipeLog`]), so its contracts hold for any such pipes.
//! A clause about the log's contents holds for any contents and pending batches that `Represents` relates to the engine
//! before the call. No call on an engine has a premise, except that the callback of a scan must have no precondition.
//!
//! [`PipeLog`]: raft_log_dual_pipes::PipeLog
#![tactic(auto)]

pub mod engine;
pub mod laws;
mod writing;

pub use engine::LogEngine;
pub use engine::opening::{Engine, EnginePipes};
pub use raft_log_purge_steps::PurgeStep;
pub use raft_log_replay::ReplayThreads;
