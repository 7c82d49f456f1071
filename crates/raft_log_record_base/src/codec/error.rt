//! Why a number can't be read or written.

ghost use Rattle.std.specs.Prelude.{◌≡◌};
ghost use Rattle.std.specs.declared.io.ErrorKind.TheVariants.{UnexpectedEof};
ghost use Rattle.std.specs.IoError.{error_kind};
ghost use Rattle.raft_log_record_base.specs.declared.codec.error.Error.TheVariants.{Io};

use std::io::ErrorKind;
use std::{fmt, io};

/// Why a codec fails. A decoder fails with two kinds of `Io`: `UnexpectedEof` if the bytes end inside a number, and
/// `InvalidData` if a number doesn't fit 64 bits. An encoder fails with the kind of its writer's error.
#[derive(Clone, Copy, Debug, PartialEq, Eq)]
pub enum Error {
    Io(ErrorKind),
    /// Never returned by this crate.
    KeyLength,
    /// Never returned by this crate.
    KeyPadding,
    /// Never returned by this crate.
    KeyNotFound,
}

impl Error {
    /// The error for bytes that end too early.
    pub fn unexpected_eof() -> Error
        ensures { result ≡ Error.Io ErrorKind.UnexpectedEof }
    {
        Error::Io(ErrorKind::UnexpectedEof)
    }
}

impl fmt::Display for Error {
    ghost use Rattle.raft_log_record_base.specs.Text.{codec_fault_text};

    ghost output = { codec_fault_text };

    fn fmt<W: fmt::Write>(&self, f: &mut fmt::Formatter<W>) -> fmt::Result {
        match self {
            Error::Io(kind) => write!(f, "{kind}"),
            Error::KeyLength => write!(f, "wrong length of a key"),
            Error::KeyPadding => write!(f, "wrong padding of a key"),
            Error::KeyNotFound => write!(f, "key not found"),
        }
    }
}

impl std::error::Error for Error {}

impl From<io::Error> for Error {
    ghost from_gives = { λ fault e. e ≡ Io (error_kind fault) };

    fn from(fault: io::Error) -> Error {
        Error::Io(fault.kind())
    }
}

/// What a codec returns.
pub type Result<T, E = Error> = std::result::Result<T, E>;

/// Bytes that are read from the front.
pub type BytesSlice<'a> = &'a [u8];
