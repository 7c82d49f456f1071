//! Callers of a store of voters that threads share. The store lives twice: its log is closed, and opened again.
#![tactic(auto)]

pub mod lives;
pub mod seats;
pub mod sharing;
pub mod two_lives;
