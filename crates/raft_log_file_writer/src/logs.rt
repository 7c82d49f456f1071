//! Laws of logs of several files, for any format in which no record's encoding is a prefix of another.

ghost use Rattle.raft_log_file_writer.specs.LogFormat.{Format, IsFormat};
ghost use Rattle.raft_log_file_writer.specs.LogQueue.{QueueIsKept, QueueIsReadable, QueueRestarts, RotatedHoldsNothing};

/// States how the files of a log are written.
pub trait LogFormat {
    /// The value of a record.
    type Record;

    ghost format: { Format Self.Record };
}

/// After any stop without a CRC collision, the records that are read of a log of several files are a prefix of those
/// written. All the synced ones are among them.
pub fn log_of_files_is_kept<G: LogFormat>()
    ensures { IsFormat G.format → QueueIsKept G.format }
{}

/// After any stop, a log of several files can be read from each number on from which no file is missing.
pub fn log_of_files_is_readable<G: LogFormat>()
    ensures { IsFormat G.format → QueueIsReadable G.format }
{}

/// What a stop without a CRC collision leaves of a log of several files is such a log again. The next stop leaves no
/// CRC collision in it.
pub fn log_of_files_restarts<G: LogFormat>()
    ensures { IsFormat G.format → QueueRestarts G.format }
{}

/// A file that gets the next number is the last of the log before its header is written, whatever its content.
pub fn rotated_log_holds_nothing<G: LogFormat>()
    ensures { RotatedHoldsNothing G.format }
{}
