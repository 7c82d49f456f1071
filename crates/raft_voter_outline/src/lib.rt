//! The rules of a Raft voter, and an outline that decides by them. An outline is the voter's state and the terms of its
//! entries, without their bytes.
//!
//! `specs/Rules.antt` defines, case by case, a voter's reply and next state. An `Outline` decides both before anything
//! is written. `decide` returns the reply and the change, and `reserve` makes room for the change. `apply` makes the
//! change and can't fail. An outline keeps the terms of a log as runs of equal terms. Its size grows with the number of
//! term changes, not with the number of entries.
#![tactic(auto)]

mod outline;
mod outlines;

pub use outline::{Answer, Change, Decision, Outline, Write};
pub use outlines::Outlines;
pub use raft_voter_messages::{Items, Memory, Reply, Request, VoterState};
