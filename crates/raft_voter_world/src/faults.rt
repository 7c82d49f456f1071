//! Faults and purges: what an event does to a store or its disk.

/// How a later call that changes files fails.
#[derive(Debug, Drop)]
pub enum Fault {
    /// The disk stops at the call of this number, counted from here, at least 1.
    Stop {
        /// The number of the call.
        calls: u64,
    },
    /// The call of this number fails, counted from here, at least 1.
    Refuse {
        /// The number of the call.
        calls: u64,
    },
}

/// A purge of a store's files.
#[derive(Clone, Copy, Debug, PartialEq, Eq)]
pub enum Purge {
    /// Purges both queues if they are past the thresholds of the settings.
    Expired,
    /// Writes the live records of Append to Rewrite, and deletes or recycles its files.
    RewriteAppend,
    /// Writes the live records of Rewrite to it again, and deletes or recycles its old files.
    RewriteRewrite,
}
