//! Makes files longer. Zeros, and writes of more than 64 KiB past the end, are durable before anything else is written
//! there.
//!
//! On ext4 with its default mount options, a page that was new at a failed sync loses later writes. They and their
//! syncs succeed, but after the next mount the page reads as zeros. Truncating the page away ends that. A growth is
//! therefore synced at once, before a record is written there. So is a write that makes its file longer by more than 64
//! KiB. If the write or its sync fails, the file is truncated to its old length.
//!
//! For lack of space the file is truncated too, so that its bytes are known.
use super::file_device::PIECE;
use raft_log_fs_traced::Attempt;
use std::fs::File;
use std::io;
use std::io::ErrorKind;
use std::os::unix::fs::FileExt;

/// Writes bytes into a file from an offset on, a piece at a time. If it fails, some of them may be written.
pub(crate) fn write_pieces(opened: &File, offset: usize, bytes: &[u8]) -> io::Result<()> {
    for start in (0..bytes.len()).step_by(PIECE) {
        let end = bytes.len().min(start.saturating_add(PIECE));
        opened.write_all_at(&bytes[start..end], offset.wrapping_add(start) as u64)?;
    }
    Ok(())
}

/// Writes bytes into a file from an offset on, past its end. Those past the end come first, so that a lack of space
/// leaves the file's own bytes as they are. If those past the end are longer than a piece, they are synced.
pub(crate) fn extend(opened: &File, offset: usize, bytes: &[u8]) -> io::Result<Attempt> {
    let length = opened.metadata()?.len();
    let inside = bytes
        .len()
        .min(length.saturating_sub(offset as u64) as usize);
    let (front, tail) = bytes.split_at(inside);
    let written = write_tail(opened, offset.wrapping_add(inside), tail);
    match keep_growth(opened, length, written)? {
        Attempt::Made => write_pieces(opened, offset, front)?,
        Attempt::Undone => return Ok(Attempt::Undone),
    }
    Ok(Attempt::Made)
}

/// Writes bytes after a file's end, and syncs them if they are longer than a piece.
fn write_tail(opened: &File, offset: usize, bytes: &[u8]) -> io::Result<()> {
    write_pieces(opened, offset, bytes)?;
    if PIECE < bytes.len() {
        opened.sync_data()
    } else {
        Ok(())
    }
}

/// Grows a file to a size with zeros, which are written in pieces of `zeros`, and syncs it. A file that has this size
/// already is unchanged.
pub(crate) fn grow(opened: &File, zeros: &[u8], size: usize) -> io::Result<Attempt> {
    let length = opened.metadata()?.len();
    if size as u64 <= length {
        return Ok(Attempt::Made);
    }
    let written = write_zeros(opened, zeros, length as usize, size);
    keep_growth(opened, length, written)
}

/// Writes zeros into a file from an offset up to a size, a piece at a time, and syncs them.
fn write_zeros(opened: &File, zeros: &[u8], offset: usize, size: usize) -> io::Result<()> {
    for start in (offset..size).step_by(PIECE) {
        let count = zeros.len().min(size.saturating_sub(start));
        opened.write_all_at(&zeros[..count], start as u64)?;
    }
    opened.sync_data()
}

/// Ends the growth of a file that had this length. If it failed, truncates the file to this length. If the cause was a
/// lack of space and the file could be truncated, the growth is undone; else the error is returned.
fn keep_growth(opened: &File, length: u64, grown: io::Result<()>) -> io::Result<Attempt> {
    let Err(error) = grown else {
        return Ok(Attempt::Made);
    };
    let cut = opened.set_len(length);
    match error.kind() {
        ErrorKind::StorageFull | ErrorKind::QuotaExceeded if cut.is_ok() => { Ok(Attempt::Undone) }
        _ => Err(error),
    }
}
