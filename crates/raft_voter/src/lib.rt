//! The receiver's side of Raft as a pure machine: many voters, each with its term, its vote and its log. Also the
//! meaning of a transcript of their replies, a judge of transcripts, and the trait of a store that keeps voters.
//!
//! Nothing here depends on files, threads or time. A `Voter` takes one `Request` at a time and returns its reply. The
//! rules of `raft_voter_outline` define the reply and the voter's next state, and the voter's outline decides by them.
//! A `Transcript` has the requests of each round and their replies. `judge` decides whether voters that never fail
//! explain it. A `RoundService` serves such rounds and keeps the voters so that they survive a crash. `StoreFiles` keep
//! them while it isn't open. Requests, replies, rounds and their stored bytes are those of `raft_voter_messages`.
#![tactic(auto)]

mod judging;
pub mod laws;
mod service;
mod store_files;
mod voter;
mod voters;

pub use judging::judge;
pub use raft_voter_messages::{
    Entry, Items, MAX_APPEND_BYTES, MAX_APPEND_ENTRIES, MAX_ENTRY_BYTES, MAX_NUMBER, Memory,
    Outcome, Reply, Request, Round, StoredFault, Transcript, VoterState, entry_bytes, read_entry,
    read_state, state_bytes,
};
pub use raft_voter_outline::{Answer, Change, Decision, Outline, Write};
pub use service::{Cause, MAX_ROUND_REQUESTS, RoundFault, RoundService};
pub use store_files::{FilesRefused, StoreFiles};
pub use voter::Voter;
pub use voters::Voters;
