//! Files that were found and read.

ghost use Rattle.raft_log_recovery_laws.specs.AllFiles.{NoFilesAreScanned, ScannedFilesAreAll};
ghost use Rattle.raft_log_recovery_laws.specs.Beginning.{ScannedFilesBegin};
ghost use Rattle.raft_log_recovery_laws.specs.FileReading.{FinishedFileIsRead, HeaderIsWritten, LastFileIsRead};
ghost use Rattle.raft_log_recovery_laws.specs.Padding.{BareDirectoriesHaveNoPadding, RestingLogsHaveNoPadding, StandingLogsHaveNoPadding};
ghost use Rattle.raft_log_recovery_laws.specs.Scanned.{ReadFilesAreScanned, ScannedFilesAreSpanned};

/// Reading a queue's last file without an alignment returns one batch for each whole record, and the end of these
/// records. If the file has no header, it returns neither.
pub fn last_files_are_read()
    ensures { LastFileIsRead }
{}

/// If reading a file without an alignment finds an end of records, the file begins with the header that encodes the
/// format read.
pub fn headers_are_written()
    ensures { HeaderIsWritten }
{}

/// Reading a file that a pipe has finished returns all its records, and finds no fault.
pub fn finished_files_are_read()
    ensures { FinishedFileIsRead }
{}

/// The files that a scan keeps of a queue have consecutive numbers, each at the path of its number. The last one is
/// open for reading and writing.
pub fn scanned_files_are_spanned()
    ensures { ScannedFilesAreSpanned }
{}

/// The files that a scan keeps of a queue begin after a gap, or with a number that two files have.
pub fn scanned_files_begin()
    ensures { ScannedFilesBegin }
{}

/// If a queue is at rest in these directories, a scan of them returns all of its files from the last gap in their
/// numbers on.
pub fn scanned_files_are_all()
    ensures { ScannedFilesAreAll }
{}

/// If a queue has no file yet, a scan returns none.
pub fn no_files_are_scanned()
    ensures { NoFilesAreScanned }
{}

/// A pipe may be opened over files that were scanned, after the last was read.
pub fn read_files_are_scanned()
    ensures { ReadFilesAreScanned }
{}

/// An open finds no file with an alignment, and removes no padding:
/// - from a log at rest, such as one that a crash left;
/// - from one that an engine left and that is opened without a crash, if there is no CRC collision in its active files;
/// - if there is no log yet.
pub fn own_logs_have_no_padding()
    ensures bare { BareDirectoriesHaveNoPadding }
    ensures resting { RestingLogsHaveNoPadding }
    ensures standing { StandingLogsHaveNoPadding }
{}
