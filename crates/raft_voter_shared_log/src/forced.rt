//! Purges by force.
use raft_log_engine::FileSeq;

/// What a forced purge of a store's log does. `VoterStore` has a call for each.
#[derive(Clone, Copy, Debug, PartialEq, Eq)]
pub enum ForcedPurge {
    /// Rewrites Append.
    RewriteAppend {
        /// The last file that is rewritten; without it, all files are.
        watermark: Option<FileSeq>,
        /// The purge ends after its first or second step.
        exit_after_step: Option<u64>,
    },
    /// Compacts Rewrite.
    RewriteRewrite,
}
