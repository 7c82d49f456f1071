//! The messages of a Raft voter: requests, replies, log entries, and rounds of them. Also the texts of replies, and the
//! bytes in which a voter is stored.
//!
//! No code here depends on what a voter does with a request. `Request::in_range` decides which requests a voter takes
//! at all. Replies print themselves as transcripts show them: `Granted 5`, `Entries 3:2:00ff`. `read_state` and
//! `read_entry` read what `state_bytes` and `entry_bytes` write for values in range; `read_state` reads an older form
//! too. They fail on any other bytes with the first fault.
#![tactic(auto)]

mod display;
pub mod laws;
mod memory;
mod reply;
mod request;
mod round;
mod stored;

pub use memory::Memory;
pub use raft_lists::Items;
pub use reply::{Entry, Reply, VoterState};
pub use request::{MAX_APPEND_BYTES, MAX_APPEND_ENTRIES, MAX_ENTRY_BYTES, MAX_NUMBER, Request};
pub use round::{Outcome, Round, Transcript};
pub use stored::{
    ENTRY_HEAD_BYTES, STATE_BYTES, StoredFault, append_entry, append_state, entry_bytes,
    read_entry, read_state, state_bytes, state_fits, stored_entry_fits,
};
