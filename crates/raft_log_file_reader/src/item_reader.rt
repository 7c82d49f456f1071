//! A reader of the items of log files.

use crate::batches::BatchReader;
use crate::files::{file_at, files_in};
use crate::log_file::LogFile;
use raft_log_fs::FileSystem;
use raft_log_record_base::Result;
use raft_log_record_items::LogItem;
use std::alloc::Global;
use std::vec::IntoIter;

/// How many bytes are read at once, if no more are needed.
const READ_BLOCK_SIZE: usize = 65_536;

/// An iterator over the items of log files, with the locations of their entries. It borrows the file system.
///
/// It reads one file after another, and returns the items of its batches in order. If a file fails, the error replaces
/// the rest of that file, and the next file follows. The entries' bytes aren't checked.
#[derive(Drop)]
pub struct LogItemReader<'a, F: FileSystem> {
    alloc: Global,
    file_system: &'a F,
    batches: BatchReader,
    /// The items of the last batch that weren't returned yet.
    items: IntoIter<LogItem>,
}

impl<'a, F: FileSystem> LogItemReader<'a, F> {
    ghost use Rattle.std.specs.Prelude.{◌≡◌, IfOk, IfErr};
    ghost use Rattle.raft_log_file_reader.specs.Files.{IsNoFile, IsNoDirectory};
    ghost use Rattle.raft_log_file_reader.specs.ItemReader.{IsReaderOf, ReadsFileAt, ReadsFilesIn};

    /// A reader of the log file with this path. Fails with `InvalidArgument` if no file has the path, or if its name
    /// isn't a log file's. Fails with `Io` if the file system has stopped, or with `Memory`.
    pub fn new_file_reader(alloc: Global, file_system: &'a F, path: &str) -> Result<Self>
        ensures ok { IfOk result (ReadsFileAt F.disk file_system.now path.now) }
        ensures err { IfErr result (λ error. IsNoFile path.now (F.disk file_system.now) error) }
    {
        let files = file_at(alloc, file_system, path)?;
        Ok(LogItemReader::new(alloc, file_system, files))
    }

    /// A reader of the log files of a directory, those of Rewrite first, and each queue's in the order of their
    /// numbers. Fails with `InvalidArgument` if the path isn't a directory's, with `Io` if the file system has stopped,
    /// or with `Memory`.
    pub fn new_directory_reader(alloc: Global, file_system: &'a F, directory: &str) -> Result<Self>
        ensures ok { IfOk result (ReadsFilesIn F.disk file_system.now directory.now) }
        ensures err { IfErr result (λ error. IsNoDirectory directory.now (F.disk file_system.now) error) }
    {
        let files = files_in(alloc, file_system, directory)?;
        Ok(LogItemReader::new(alloc, file_system, files))
    }

    /// A reader of these files.
    fn new(alloc: Global, file_system: &'a F, files: Vec<LogFile>) -> Self
        ensures { IsReaderOf F.disk file_system.now files.items result }
    {
        LogItemReader {
            alloc,
            file_system,
            batches: BatchReader::new(alloc, files, READ_BLOCK_SIZE),
            items: Vec::new(alloc).into_iter(),
        }
    }
}

impl<'a, F: FileSystem> Iterator for LogItemReader<'a, F> {
    type Item = Result<LogItem>;

    ghost use Rattle.std.specs.Iterator.{at_most};
    ghost use Rattle.raft_log_file_reader.specs.ItemReader.{IsFileAtWork, GivesFirst, most_to_come};

    ghost can_next = { IsFileAtWork F.disk };

    ghost next_gives = { GivesFirst F.disk };

    ghost remaining = { λ reader. at_most (most_to_come F.disk reader) };

    fn next(&mut self) -> Option<Result<LogItem>> {
        loop {
            if let Some(item) = self.items.next() {
                return Some(Ok(item));
            }
            match self.batches.next(self.alloc, self.file_system) {
                Ok(Some(batch)) => self.items = batch.into_items().into_iter(),
                Ok(None) => return None,
                Err(error) => return Some(Err(error)),
            }
        }
    }
}
