//! How a recovery handles damaged files.

/// How a recovery handles damaged files. In every mode, an open fails if a read fails, or at a foreign record: a whole
/// one with a compression that isn't read.
#[derive(Clone, Copy, Debug, PartialEq, Eq)]
pub enum RecoveryMode {
    /// Any damage fails the open.
    AbsoluteConsistency,
    /// The last file of a queue is truncated before its damage; damage in any other file fails the open.
    TolerateTailCorruption,
    /// Each file is truncated before its damage.
    TolerateAnyCorruption,
}
