//! Events: what happens to a store of voters and to its disk.
use raft_voter_messages::{Items, Request};
use std::string::String;

/// One event.
#[derive(Debug, Drop)]
pub enum Event {
    /// Requests are submitted together, each with its group.
    Round {
        /// The requests, in order.
        requests: Items<(u64, Request)>,
    },
    /// Both queues are purged if they are past the thresholds of the settings.
    Maintain,
    /// The live records of Append are written to Rewrite, and its files are deleted or recycled.
    RewriteAppend,
    /// The live records of Rewrite are written to it again, and its old files are deleted or recycled.
    RewriteRewrite,
    /// The store is opened; one that is open is closed first.
    Open {
        /// How many workers read its files, at least one.
        workers: u64,
    },
    /// The store is closed.
    Close,
    /// The machine stops.
    Crash {
        /// What remains of the unsynced changes.
        left: Left,
    },
    /// The machine stops at a call that changes files.
    CrashAt {
        /// The number of the call, counted from here; 0 means none.
        calls: u64,
        /// What remains of the unsynced changes.
        left: Left,
    },
    /// A call that changes files fails.
    Refuse {
        /// The number of the call, counted from here; 0 means none.
        calls: u64,
    },
    /// The files of a store that isn't open are copied into a directory.
    Fork {
        /// The directory.
        target: String,
    },
}

/// What a crash leaves of the unsynced changes.
#[derive(Debug, Drop)]
pub enum Left {
    /// Nothing: only what was synced remains.
    Last,
    /// All of them.
    All,
    /// Only the first unsynced pieces, in the order of the calls over all files. If the next piece is a write, its
    /// first `bytes` bytes remain too.
    First {
        /// How many pieces are left whole.
        pieces: u64,
        /// How many bytes of the next one.
        bytes: u64,
    },
}
