//! Reads the voters of many groups from the log of an engine that was just opened: their outlines, or whole voters.
//!
//! For each group that isn't empty it reads the one key, and the entries in pieces. It writes nothing. If a group has
//! something other than a voter, it fails and names that group.
#![tactic(auto)]

mod entries;
mod entry_head;
mod heads;
mod outlines;
mod terms;
mod unread;
mod voters;

pub use outlines::read_outlines;
pub use unread::Unread;
pub use voters::read_voters;
