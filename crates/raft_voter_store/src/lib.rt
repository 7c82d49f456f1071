//! The voter store: voters of many groups whose log an engine keeps. Only their outlines are in memory.
//!
//! The outlines decide a round of requests. For each request that changes its voter, one batch is written to the
//! engine's log. The replies are returned after one sync. Only a request for entries reads the log.
#![tactic(auto)]

mod counters;
mod entries;
mod refusals;
mod saying;
mod store;
mod writing;

pub use counters::{StoreCounters, WorkCounters};
pub use refusals::{Refusal, RefusalCause};
pub use store::{LogVoterStore, StoreRefused, VoterStore};
