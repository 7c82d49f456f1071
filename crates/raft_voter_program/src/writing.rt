//! Writing that says which bytes a failing writer took.
ghost use Rattle.std.specs.Prelude.{◌≢◌, IfErr, IfOk, OnOk, OnErr};
ghost use Rattle.std.specs.IoError.{error_kind};
ghost use Rattle.std.specs.Io.KnownBytes.{Appends, Keeps};
ghost use Rattle.raft_voter_program.specs.Writing.{StopsWithin, TakesFront};

use std::io;
use std::io::{ErrorKind, Write};

/// The most calls of a writer for one text.
const MOST_WRITES: u64 = 1_099_511_627_776;

/// Writes all bytes. An interrupted call is repeated.
///
/// Fails as the writer does, with `WriteZero` if a call took no byte, or with `TimedOut` after 2^40 calls. Then the
/// writer took a prefix of the bytes, but not all.
pub fn write_whole<W: Write>(writer: &mut W, bytes: &[u8]) -> io::Result<()>
    ensures ok { OnOk result (Appends (W.contents writer.old) (W.contents writer.new) bytes.now) }
    ensures err { OnErr result (StopsWithin (W.contents writer.old) (W.contents writer.new) bytes.now) }
    ensures retried { IfErr result (λ fault. error_kind fault ≢ ErrorKind.Interrupted) }
{
    let mut left = bytes;
    for _ in 0..MOST_WRITES {
        if left.is_empty() {
            return Ok(());
        }
        left = write_front(writer, left)?;
    }
    if left.is_empty() {
        return Ok(());
    }
    Err(io::Error::from(ErrorKind::TimedOut))
}

/// Calls the writer once. Returns the bytes that are left; all of them if the call was interrupted.
fn write_front<'a, W: Write>(writer: &mut W, bytes: &'a [u8]) -> io::Result<&'a [u8]>
    ensures ok { IfOk result (λ left.
        TakesFront (W.contents writer.old) (W.contents writer.new) bytes.now left.now) }
    ensures err { OnErr result (Keeps (W.contents writer.old) (W.contents writer.new)) }
    ensures retried { IfErr result (λ fault. error_kind fault ≢ ErrorKind.Interrupted) }
{
    match writer.write(bytes) {
        Ok(count) => {
            if count == 0 {
                return Err(io::Error::from(ErrorKind::WriteZero));
            }
            Ok(&bytes[count..])
        }
        Err(fault) => {
            if fault.kind() != ErrorKind::Interrupted {
                return Err(fault);
            }
            Ok(bytes)
        }
    }
}
