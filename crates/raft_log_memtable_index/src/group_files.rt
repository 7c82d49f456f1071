//! The files of atomic groups.

/// The files that the atomic groups of a table may be in, from the first to the last.
#[derive(Clone, Copy, Debug, PartialEq, Eq)]
pub struct GroupFiles {
    /// The first file.
    pub from: u64,
    /// The last file.
    pub to: u64,
}
