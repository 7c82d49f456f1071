//! Replies of a voter.
use crate::Items;

/// An entry of a log.
#[derive(Debug, PartialEq, Drop)]
pub struct Entry {
    /// The index in the log, counted from 1.
    pub index: u64,
    /// The term in which its leader made it.
    pub term: u64,
    /// The payload that the leader's client sent.
    pub bytes: Items<u8>,
}

/// The state of a voter, without its entries.
#[derive(Clone, Copy, Debug, PartialEq, Eq)]
pub struct VoterState {
    /// The current term.
    pub term: u64,
    /// The candidate that it voted for in this term.
    pub vote: Option<u64>,
    /// The index up to which the log was compacted, 0 at first.
    pub base_index: u64,
    /// The term of the entry there, 0 at first.
    pub base_term: u64,
    /// The index of the last entry, or the base's.
    pub last_index: u64,
    /// The term of the last entry, or the base's.
    pub last_term: u64,
    /// The index up to which entries are known to be committed, 0 at first.
    pub commit: u64,
}

/// A voter's reply to a request.
#[derive(Debug, PartialEq, Drop)]
pub enum Reply {
    /// The vote is the candidate's, in this term.
    Granted(u64),
    /// The vote isn't the candidate's. The value is the voter's term.
    Denied(u64),
    /// The log agrees with the leader's up to this index.
    Matched(u64),
    /// The log doesn't have the leader's entry right before those sent. The value is a hint: an index at which the logs
    /// may agree.
    Mismatch(u64),
    /// The leader's term is below the voter's, which is the value.
    Stale(u64),
    /// The index up to which the log was compacted.
    Base(u64),
    /// The entries that were asked for.
    Entries(Items<Entry>),
    /// The first index that was asked for is not above the base's. The value is the base's index.
    Gone(u64),
    /// The last index that was asked for is above that of the log. The value is the log's last index.
    Unknown(u64),
    /// The voter's state.
    Status(VoterState),
    /// The voter is a fresh one again.
    Retired,
    /// The voter did not take the request.
    Refused,
}
