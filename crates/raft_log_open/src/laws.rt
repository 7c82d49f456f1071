//! What an open reads of a file whose padding was removed. Each law is a function without a body.

ghost use Rattle.raft_log_open.specs.Laws.{FilesReadTheSame, RecordsReadTheSame, WrittenFilesReadTheSame};

/// The new bytes of a file hold exactly its records, byte for byte and in order. There is damage after them exactly if
/// there was before.
pub fn records_read_the_same()
    ensures { RecordsReadTheSame }
{}

/// An open reads the same batches with and without padding: the same items, and the same bytes of entries, at other
/// places. There is damage after them exactly if there was before.
pub fn files_read_the_same()
    ensures { FilesReadTheSame }
{}

/// For each file that was written anew, an open reads under its path what it read there before, at other places.
pub fn written_files_read_the_same()
    ensures { WrittenFilesReadTheSame }
{}
