//! Finds out whether the end of a file is only zeros.

ghost use Rattle.std.specs.Prelude.{◌≡◌, ◌↔◌, ◌<◌, IsTrue, IfOk, drop, length};
ghost use Rattle.raft_log_fs.specs.Receipts.{Collects};
ghost use Rattle.raft_log_file_reader.specs.Source.{bytes_in};
ghost use Rattle.raft_log_inspection.specs.Intact.{AreZeros};
ghost use Rattle.raft_log_inspection.specs.Steps.{IsPieceOf};

use raft_log_fs::{FileSystem, Handle, Receipt};
use raft_log_record_base::Result;
use std::alloc::Global;
use std::io::ErrorKind;

/// How many bytes are read at a time.
const PIECE: usize = 1 << 16;

/// A piece of a file that was read.
#[derive(Clone, Copy)]
pub(crate) struct Piece {
    /// How many bytes it has.
    pub(crate) count: usize,
    /// Whether they are all zeros.
    pub(crate) has_zeros: bool,
}

/// Whether a file has only zeros from this offset on, or nothing. Adds its reads to `receipts`. Fails with `Io` if a
/// read fails, or with `Memory`.
pub(crate) fn has_zeros_from<F: FileSystem>(
    alloc: Global,
    files: &F,
    handle: Handle,
    offset: usize,
    receipts: &mut Receipt,
) -> Result<bool>
    ensures ok { IfOk result (λ zeros. IsTrue receipts.new.honest → IsTrue zeros
        ↔ AreZeros (drop offset (bytes_in ((F.disk files.now).files handle.file)))) }
    ensures receipts { Collects F.tells_truth receipts.old.honest receipts.new.honest }
{
    let size = files.file_size(handle)?;
    let mut room = vec![in alloc; 0u8; PIECE]?;
    let zeros = scan_zeros(files, handle, offset, size, room.as_mut_slice(), receipts)?;
    Ok(zeros)
}

/// Whether a file of this size has only zeros from this offset on. Reads as many bytes at a time as the room has. Fails
/// with `UnexpectedEof` if a read returns no byte, or more bytes than the file has there.
fn scan_zeros<F: FileSystem>(
    files: &F,
    handle: Handle,
    offset: usize,
    size: usize,
    room: &mut [u8],
    receipts: &mut Receipt,
) -> Result<bool, ErrorKind>
    requires some { 0 < length room.old }
    requires whole { size ≡ length (bytes_in ((F.disk files.now).files handle.file)) }
    ensures ok { IfOk result (λ zeros. IsTrue receipts.new.honest → IsTrue zeros
        ↔ AreZeros (drop offset (bytes_in ((F.disk files.now).files handle.file)))) }
    ensures receipts { Collects F.tells_truth receipts.old.honest receipts.new.honest }
{
    let mut at = offset;
    while at < size {
        let piece = read_piece(files, handle, at, room, receipts)?;
        if piece.count == 0 || size - at < piece.count {
            return Err(ErrorKind::UnexpectedEof);
        }
        if !piece.has_zeros {
            return Ok(false);
        }
        at += piece.count;
    }
    Ok(true)
}

/// Reads bytes from an offset on into the room.
fn read_piece<F: FileSystem>(
    files: &F,
    handle: Handle,
    at: usize,
    room: &mut [u8],
    receipts: &mut Receipt,
) -> Result<Piece, ErrorKind>
    ensures ok { IfOk result (λ piece. IsTrue receipts.new.honest
        → IsPieceOf (bytes_in ((F.disk files.now).files handle.file)) at (length room.old) piece) }
    ensures receipts { Collects F.tells_truth receipts.old.honest receipts.new.honest }
{
    let read = files.read_at(handle, at, room)?;
    receipts.note(&read.receipt);
    let count = read.count;
    let has_zeros = are_zeros(&room[..count]);
    Ok(Piece { count, has_zeros })
}

/// Whether all bytes are zeros.
fn are_zeros(bytes: &[u8]) -> bool
    ensures { IsTrue result ↔ AreZeros bytes.now }
{
    bytes.iter().all(|byte| *byte == 0)
}
