//! Rounds that callers hand in: merges them, keeps their records in a journal, and makes receipts for their callers.
#![tactic(auto)]

mod caller;
mod copies;
mod done;
mod draft;
mod hall;
mod job;
mod journal;
mod merged_round;
mod opening;
mod receipt;
mod records;
mod taken;
mod ticket;

pub use copies::copy_requests;
pub use done::{Done, Told, are_asked, fetch};
pub use draft::Draft;
pub use hall::Hall;
pub use job::{Job, Part};
pub use journal::Journal;
pub use merged_round::MergedRound;
pub use opening::Opening;
pub use receipt::{Receipt, SharedFault, Statement};
pub use records::{hand_out, note_answers, note_cuts, refuse_all};
pub use taken::Taken;
pub use ticket::Ticket;
