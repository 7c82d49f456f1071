//! Callers of an engine that threads share. The log lives twice: it is closed, and opened again.
#![tactic(auto)]

pub mod lives;
pub mod sharing;
