//! Listeners that are notified of what happens to a log's files, and pipes that notify them.
#![tactic(auto)]

pub mod event_listener;
pub mod laws;
pub mod listeners;
pub mod purge_hook;
pub mod told_pipes;

pub use event_listener::{EventListener, Nobody};
pub use listeners::{Listeners, lesser};
pub use purge_hook::PurgeHook;
pub use told_pipes::ToldPipes;
