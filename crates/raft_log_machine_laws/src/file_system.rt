//! A file system as a recovery reads a log from it.

ghost use Rattle.raft_log_machine_laws.specs.DirectoryImages.{Readings};

/// Defines which images a crash may leave of a file system, and which files a recovery may read from each.
pub trait LogImages {
    /// The type of an entry.
    type Entry;

    /// The type of a key's value.
    type Value;

    ghost readings: { Readings Self Self.Entry Self.Value };
}
