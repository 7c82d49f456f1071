//! Events: what happens to a log, and how it ends.

/// A call of an engine that has the log open. `B` is the type of a batch.
#[derive(Drop)]
pub enum Call<B> {
    /// Writes a batch.
    Write {
        /// The batch.
        batch: B,
        /// Whether to make all batches durable after it.
        sync: bool,
    },
    /// Makes all batches durable.
    Sync,
    /// Reads the value of a group's key.
    Get {
        /// The group.
        group: u64,
        /// The key.
        key: Vec<u8>,
    },
    /// Reads the entry of a group at an index.
    GetEntry {
        /// The group.
        group: u64,
        /// The index.
        index: u64,
    },
    /// Reads the first index at which a group has an entry.
    FirstIndex {
        /// The group.
        group: u64,
    },
    /// Reads the last index at which a group has an entry.
    LastIndex {
        /// The group.
        group: u64,
    },
    /// Reads the entries of a group from an index on.
    Fetch {
        /// The group.
        group: u64,
        /// The index of the first entry.
        begin: u64,
        /// The index after the last entry.
        end: u64,
        /// The greatest size in bytes, if there is one. The first entry may be larger.
        max: Option<u64>,
    },
    /// Reads the keys of a group and their values, in the order of the keys' bytes.
    Scan {
        /// The group.
        group: u64,
        /// The scan has only keys from this one on, if there is one.
        start: Option<Vec<u8>>,
        /// The scan has only keys below this one, if there is one.
        end: Option<Vec<u8>>,
    },
    /// Deletes the entries of a group below an index.
    Compact {
        /// The group.
        group: u64,
        /// The index.
        index: u64,
    },
    /// Collects garbage.
    Purge(Purge),
}

/// How garbage is collected.
#[derive(Drop)]
pub enum Purge {
    /// Purges each queue if it is past its threshold in the settings.
    Expired,
    /// Deletes the files that have nothing in use. Copies nothing.
    Stale,
    /// Writes what is live in Append to Rewrite.
    RewriteAppend {
        /// The number of the last file to rewrite, if it isn't the last one of Append.
        watermark: Option<u64>,
        /// The step to end after, if it isn't the last one.
        exit_after_step: Option<u64>,
    },
    /// Writes what is live in Rewrite to it again.
    RewriteRewrite,
}

/// A fault of the file system. Only calls that change files are counted, from the next one on.
#[derive(Drop)]
pub enum Fault {
    /// A call fails. A write writes some of its first bytes before.
    Refuse {
        /// The number of the call.
        call: u64,
        /// How many bytes a write writes.
        part: u64,
    },
    /// The file system stops.
    Stop {
        /// The number of the call.
        call: u64,
        /// Whether the call is done before.
        after: bool,
    },
}

/// One event. `C` is the type of what a crash leaves.
#[derive(Drop)]
pub enum Event<B, C> {
    /// Opens the log, if no engine has it open.
    Open {
        /// How many workers read its files, at least one.
        workers: u64,
    },
    /// Calls the engine, if one has the log open.
    Serve(Call<B>),
    /// Closes the log, if an engine has it open.
    Close,
    /// Copies the files of the log into a directory, if no engine has it open. If that succeeds, the log is the copy.
    Fork {
        /// The directory. It is made if it doesn't exist.
        target: String,
    },
    /// Arms a fault of the file system. It may make later calls fail.
    Arm {
        /// The fault.
        fault: Fault,
    },
    /// Stops the machine. No engine has the log open then.
    Crash {
        /// What remains of the unsynced changes.
        left: C,
    },
}

/// How an event ended.
#[derive(Debug, Drop)]
pub enum Answer {
    /// It succeeded.
    Done,
    /// A read returned the bytes, or nothing.
    Found(Option<Vec<u8>>),
    /// A read returned this index, or none.
    At(Option<u64>),
    /// A read returned these entries, one after another.
    Entries(Vec<Vec<u8>>),
    /// A read returned these keys, each with its value.
    Keys(Vec<(Vec<u8>, Vec<u8>)>),
    /// It failed. If it was a call, the engine runs on.
    Refused,
    /// It failed, and the engine has failed: before this event, or in it.
    Failed,
    /// Nothing was done: the log wasn't open for a call or a close, or it was already open for an open or a copy.
    Idle,
}
