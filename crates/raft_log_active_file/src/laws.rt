//! Laws of the files of a queue, at any point inside any call on them.

ghost use Rattle.std.specs.Prelude.{ℕ, List};
ghost use Rattle.raft_log_file_writer.specs.LogFormat.{Format, IsFormat};
ghost use Rattle.raft_log_active_file.specs.Laws.{FilesAreKept, FilesAreReadable, FilesRestart};

/// States how the files of a queue are written, and which paths are its own.
pub trait QueueFormat {
    /// The value of a record.
    type Record;

    ghost format: { Format Self.Record };

    ghost own: { List ℕ → Type 0 };
}

/// After any stop without a CRC collision, reading finds all records of the earlier files. Of the last file it finds
/// all durable records and a prefix of the pending ones.
pub fn files_are_kept<G: QueueFormat>()
    ensures { IsFormat G.format → FilesAreKept G.format G.own }
{}

/// After any stop, a queue on a sound disk can be read from each number on from which no file is missing.
pub fn files_are_readable<G: QueueFormat>()
    ensures { IsFormat G.format → FilesAreReadable G.format G.own }
{}

/// What a stop without a CRC collision leaves is the queue again, with the records that were kept.
pub fn files_restart<G: QueueFormat>()
    ensures { IsFormat G.format → FilesRestart G.format G.own }
{}
