//! How many files a log has in each queue, and how many bytes they have.
use crate::fault::CommandFault;
use crate::found_file::{FoundFile, find_files};
use crate::text::queue_word;
use raft_log_command_line::Place;
use raft_log_engine::{Error, FileSystem, LogQueue, Permission};
use std::alloc::Global;
use std::io::{ErrorKind, Write};
use std::{fmt, io};

/// A count and a sum of bytes.
#[derive(Clone, Copy)]
pub(crate) struct Amount {
    /// How many.
    pub(crate) count: u64,
    /// How many bytes they have.
    pub(crate) bytes: u64,
}

impl Amount {
    /// Nothing.
    pub(crate) fn none() -> Amount {
        Amount { count: 0, bytes: 0 }
    }

    /// Counts one more, with so many bytes.
    pub(crate) fn add(&mut self, bytes: usize) {
        self.count = self.count.saturating_add(1);
        self.bytes = self.bytes.saturating_add(bytes as u64);
    }
}

/// The files of a queue. Prints as `append: files 1 to 3: 3 files, 401 bytes`, or `append: no files`.
#[derive(Clone, Copy)]
pub(crate) struct QueueSize {
    queue: LogQueue,
    span: Option<(u64, u64)>,
    /// How many files it has, and how many bytes they have.
    pub(crate) size: Amount,
}

impl QueueSize {
    /// The files of a queue among those that were found. Fails with `File` if one isn't opened.
    pub(crate) fn measure<F: FileSystem>(
        alloc: Global,
        files: &F,
        found: &[FoundFile],
        queue: LogQueue,
    ) -> Result<QueueSize, CommandFault> {
        let mut measured = QueueSize {
            queue,
            span: None,
            size: Amount::none(),
        };
        for file in found {
            if file.id.queue == queue {
                let path = file.path.as_str();
                match size_of(files, path) {
                    Ok(bytes) => measured.add(file.id.seq, bytes),
                    Err(kind) => return Err(CommandFault::at(alloc, path, Error::Io(kind))),
                }
            }
        }
        Ok(measured)
    }

    /// Counts the file with this number, which is the queue's last one so far.
    fn add(&mut self, seq: u64, bytes: usize) {
        self.span = match self.span {
            Some((first, _)) => Some((first, seq)),
            None => Some((seq, seq)),
        };
        self.size.add(bytes);
    }
}

impl fmt::Display for QueueSize {
    fn fmt<W: fmt::Write>(&self, f: &mut fmt::Formatter<W>) -> fmt::Result {
        let word = queue_word(self.queue);
        let Amount { count, bytes } = self.size;
        match self.span {
            Some((first, last)) => write!(
                f,
                "{word}: files {first} to {last}: {count} files, {bytes} bytes"
            ),
            None => write!(f, "{word}: no files"),
        }
    }
}

fn size_of<F: FileSystem>(files: &F, path: &str) -> Result<usize, ErrorKind> {
    let handle = files.open(path, Permission::ReadOnly)?;
    files.file_size(handle)
}

/// The files of both queues of a log.
#[derive(Clone, Copy)]
pub(crate) struct LogSize {
    append: QueueSize,
    rewrite: QueueSize,
}

impl LogSize {
    /// The files of a log. Fails with `File` if a directory isn't listed or a file isn't opened, or with `Log` if
    /// memory runs out.
    pub(crate) fn measure<F: FileSystem>(
        alloc: Global,
        files: &F,
        place: &Place,
    ) -> Result<LogSize, CommandFault> {
        let found = find_files(alloc, files, place)?;
        let append = QueueSize::measure(alloc, files, found.as_slice(), LogQueue::Append)?;
        let rewrite = QueueSize::measure(alloc, files, found.as_slice(), LogQueue::Rewrite)?;
        Ok(LogSize { append, rewrite })
    }

    /// Whether there is no file.
    pub(crate) fn is_empty(&self) -> bool {
        self.append.size.count == 0 && self.rewrite.size.count == 0
    }

    /// Writes a line for each queue, which begins with this word.
    pub(crate) fn write<W: Write>(&self, word: &str, out: &mut W) -> io::Result<()> {
        let LogSize { append, rewrite } = *self;
        writeln!(out, "{word}: {append}")?;
        writeln!(out, "{word}: {rewrite}")
    }
}
