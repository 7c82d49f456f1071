//! What a transcript means for one group. If voters that never fail explain it, the callers of each group saw the
//! replies of one voter that never crashes.
//!
//! Each law is the contract of a function that does nothing. `specs/Calls.antt` has the definitions, and
//! `specs/Laws.antt` the statements.
#![tactic(auto)]

pub mod examples;
mod judging;
pub mod laws;

pub use judging::judge_groups;
