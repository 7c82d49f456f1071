//! Standard output, which may be a pipe that its reader closes.
use std::io;
use std::io::{ErrorKind, Write};

/// A writer to a pipe that its reader may close early.
#[derive(Drop)]
pub struct Pipe<W> {
    inner: W,
    goes_on: bool,
}

impl<W> Pipe<W> {
    /// Wraps a writer. `goes_on` says what a write does after the reader closed the pipe: it succeeds and drops the
    /// bytes, or it fails.
    pub fn new(inner: W, goes_on: bool) -> Pipe<W> {
        Pipe { inner, goes_on }
    }
}

impl<W: Write> Write for Pipe<W> {
    fn write(&mut self, bytes: &[u8]) -> io::Result<usize> {
        match self.inner.write(bytes) {
            Ok(count) => Ok(count),
            Err(error) => {
                if self.goes_on && is_closed(&error) {
                    return Ok(bytes.len());
                }
                Err(error)
            }
        }
    }

    fn flush(&mut self) -> io::Result<()> {
        self.inner.flush()
    }
}

/// Whether a write failed because the pipe was closed.
pub fn is_closed(error: &io::Error) -> bool {
    error.kind() == ErrorKind::BrokenPipe
}
