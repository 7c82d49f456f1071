//! Why a call on the log fails.
ghost use Rattle.std.specs.Prelude.{◌≡◌};
ghost use Rattle.raft_log_record_base.specs.declared.errors.Error.TheVariants as errors;

use crate::codec;
use crate::size::ParseSizeError;
use std::alloc::{AllocError, AllocFailed, Global};
use std::io::ErrorKind;
use thiserror::Error;

/// Why a call on the log fails.
#[derive(Debug, Drop, Error)]
pub enum Error {
    /// The call rejects an argument.
    #[error("Invalid Argument: {0}")]
    InvalidArgument(String),
    /// Bytes that no log has.
    #[error("Corruption: {0}")]
    Corruption(String),
    /// A call of the file system failed.
    #[error("IO Error: {0}")]
    Io(ErrorKind),
    /// A number's bytes end too early, or the number doesn't fit 64 bits.
    #[error("Codec Error: {0}")]
    Codec(codec::Error),
    /// A message's `parse` rejects the bytes.
    #[error("Message Error: {0}")]
    Message(String),
    /// Space ran out and nothing was added; the same call may succeed.
    #[error("Try again error: {0}")]
    TryAgain(String),
    /// The index is below the group's first entry.
    #[error("Entry Compacted")]
    EntryCompacted,
    /// There is no such entry.
    #[error("Entry not found")]
    EntryNotFound,
    /// A batch or its record would get too long.
    #[error("Full")]
    Full,
    /// Anything else.
    #[error("Other Error: {0}")]
    Other(Box<anyhow::Error>),
    /// Memory ran out.
    #[error("Memory")]
    Memory,
    /// A failure, now or before, couldn't be repaired. Every later read and write of the log fails with this error.
    #[error("Failed")]
    Failed,
    /// The entries would leave a gap after those that are there, or reach index 2^64 - 1.
    #[error("Hole")]
    Hole,
    /// The numbers of files have run out.
    #[error("Number out of range")]
    NumberRange,
}

/// What a call on the log returns.
pub type Result<T, E = Error> = std::result::Result<T, E>;

impl Error {
    ghost use Rattle.raft_log_record_base.specs.Fault.{IsOtherOf, IsInvalidSize};

    /// `Other` with this error, or `Memory` if there is no memory to keep it.
    pub fn other(alloc: Global, error: anyhow::Error) -> Error
        ensures { IsOtherOf error result }
    {
        match Box::new(alloc, error) {
            Ok(error) => Error::Other(error),
            Err(_) => Error::Memory,
        }
    }

    /// The error for a text that is no size: `InvalidArgument` with the fault's text, or `Memory` if there is no memory
    /// for it.
    pub fn invalid_size(alloc: Global, fault: ParseSizeError) -> Error
        ensures { IsInvalidSize fault result }
    {
        match fault.to_string(alloc) {
            Ok(text) => Error::InvalidArgument(text),
            Err(_) => Error::Memory,
        }
    }
}

impl From<AllocError> for Error {
    ghost from_gives = { λ _ e. e ≡ errors.Memory };

    fn from(_e: AllocError) -> Error {
        Error::Memory
    }
}

impl<T: Drop> From<AllocFailed<T>> for Error {
    ghost from_gives = { λ _ e. e ≡ errors.Memory };

    fn from(_e: AllocFailed<T>) -> Error {
        Error::Memory
    }
}

impl From<ErrorKind> for Error {
    ghost from_gives = { λ kind e. e ≡ errors.Io kind };

    fn from(kind: ErrorKind) -> Error {
        Error::Io(kind)
    }
}

impl From<codec::Error> for Error {
    ghost from_gives = { λ c e. e ≡ errors.Codec c };

    fn from(e: codec::Error) -> Error {
        Error::Codec(e)
    }
}
