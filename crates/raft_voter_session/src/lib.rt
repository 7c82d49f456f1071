//! The texts of sessions and transcripts: reads sessions, and writes transcripts.
#![tactic(auto)]

mod events;
pub mod laws;
mod reading;
mod requests;
mod session;
mod text;
mod words;

pub use session::{Session, SessionFault, read_session};
pub use text::{round_lines, write_transcript, write_unreadable};
