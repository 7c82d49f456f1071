//! Permissions of handles, and faults that make calls fail.

/// What a handle may do.
#[derive(Clone, Copy, Debug, PartialEq, Eq)]
pub enum Permission {
    /// Reads and syncs. A write, a truncation or an allocation fails with `PermissionDenied`.
    ReadOnly,
    /// All calls on a file.
    ReadWrite,
}

/// An open file. A handle stays with its file when the file is renamed. Once the file was deleted, or another file was
/// renamed over it, calls with the handle fail with `NotFound`.
#[derive(Clone, Copy, Debug, PartialEq, Eq)]
pub struct Handle {
    /// The file's number in its file system, which gives each number once.
    pub file: usize,
    /// What the handle may do.
    pub permission: Permission,
}

/// A way to make later calls fail. Calls are counted from the one after `arm`, and only changing calls count. A count
/// of 0 arms nothing, and what was armed stays.
#[derive(Debug, PartialEq, Eq, Drop)]
pub enum Fault {
    /// The n-th changing call fails and changes nothing.
    Refuse(u64),
    /// The n-th changing call fails. A write writes this many of its first bytes, or all if it has fewer; these aren't
    /// synced. Any other call changes nothing.
    RefuseInPart(u64, usize),
    /// A place of the file that has this name now becomes unreadable. A read that asks for it fails, whatever the
    /// file's name is then. If no file has the name, nothing is armed.
    DenyRead(String, usize),
    /// The file system stops at the n-th changing call. A write, a truncation or an allocation there counts as not
    /// synced; any other call hasn't happened.
    StopAt(u64),
    /// The n-th changing call is done but fails, and the file system has stopped.
    StopAfter(u64),
    /// The files of the directory with this path may have this many bytes in all; that replaces an earlier limit for
    /// it. A write or an allocation that would make them grow past it fails with `StorageFull`, and nothing of it is
    /// done. `free_space` returns what is left.
    Space(String, u64),
}
