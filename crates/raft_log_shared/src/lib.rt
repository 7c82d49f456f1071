//! A log engine that many threads share. Writes that wait are written together, with one sync.
#![tactic(auto)]

mod ask;
mod claim;
mod desk;
mod done;
mod hall;
mod history;
mod job;
mod keeper;
pub mod laws;
mod noted_engine;
mod opening;
mod receipt;
mod rule;
mod served;
mod shared;
mod work;
mod written;

pub use history::{FreshHistory, Named};
pub use opening::{Asks, Opening};
pub use receipt::Receipt;
pub use served::Served;
pub use shared::SharedEngine;
pub use written::Written;
