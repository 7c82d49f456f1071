//! Finds foreign records: whole ones whose compression this log doesn't read.
ghost use Rattle.std.specs.Prelude.{◌≡◌, ◌↔◌, ◌≤◌, length, IsOk, IsTrue, IfOk, IfErr};
ghost use Rattle.raft_log_fs.specs.Receipts.{Collects};
ghost use Rattle.raft_log_record_frames.specs.Record.{body_of};
ghost use Rattle.raft_log_file_reader.specs.Foreign.{FindsForeign};
ghost use Rattle.raft_log_file_reader.specs.ForeignHeader.{IsForeignHeader, SpellsHeader};
ghost use Rattle.raft_log_file_reader.specs.Holding.{HoldsPart};
ghost use Rattle.raft_log_file_reader.specs.Source.{bytes_of, CannotRead};

use crate::batch::find_record;
use crate::open_file::OpenFile;
use crate::window::Window;
use raft_log_fs::FileSystem;
use raft_log_record_base::{LogFileContext, Result, codec};
use raft_log_record_checksum::crc32;
use raft_log_record_frames::LOG_BATCH_HEADER_LEN;
use std::alloc::Global;

/// The length of a footer's checksum in bytes.
const CHECKSUM_LEN: usize = 4;

/// A record whose length and checksum are right, and whose compression isn't read.
#[derive(Clone, Copy, Debug, PartialEq, Eq)]
pub struct ForeignRecord {
    /// Where it begins, in bytes from the file's start.
    pub offset: usize,
    /// Its compression type, which isn't 0.
    pub compression: u8,
}

/// The header of a record, as its bytes have it.
#[derive(Clone, Copy)]
pub(crate) struct SpelledHeader {
    /// The compression type.
    pub(crate) compression: u8,
    /// The offset of the footer in the record.
    pub(crate) footer: u64,
    /// The length of the record in bytes.
    pub(crate) len: u64,
}

/// Reads a header, whatever its compression.
fn spelled_header(bytes: &[u8]) -> codec::Result<SpelledHeader>
    requires { 16 ≤ length bytes.now }
    ensures ok { IfOk result (SpellsHeader bytes.now) }
    ensures sure { IsOk result }
{
    let mut rest: &[u8] = bytes;
    let word = codec::decode_u64(&mut rest)?;
    let footer = codec::decode_u64(&mut rest)?;
    Ok(SpelledHeader {
        compression: (word % 256) as u8,
        footer,
        len: word / 256,
    })
}

/// Whether a header is that of a foreign record of at most `left` bytes.
fn is_foreign(header: SpelledHeader, left: usize) -> bool
    ensures { IsTrue result ↔ IsForeignHeader header left }
{
    0 < header.compression
        && LOG_BATCH_HEADER_LEN as u64 <= header.footer
        && header.footer <= header.len
        && header.len <= left as u64
}

/// Whether a footer ends with its checksum, into which this signature is mixed.
#[tactic(auto, unfolding(raft_log_record_frames::specs::Record::body_of))]
fn has_checksum(bytes: &[u8], signature: Option<u32>) -> bool
    ensures { IsTrue result ↔ IsOk (body_of signature bytes.now) }
{
    let len = bytes.len();
    if len <= CHECKSUM_LEN {
        return false;
    }
    let (body, mut checksum) = bytes.split_at(len - CHECKSUM_LEN);
    match codec::decode_u32_le(&mut checksum) {
        Ok(told) => told == crc32(body) ^ signature.unwrap_or(0),
        Err(_) => false,
    }
}

/// The next record after an offset, if it is foreign. Fails only as a read does.
pub(crate) fn find_foreign<F: FileSystem>(
    alloc: Global,
    file_system: &F,
    file: &OpenFile,
    window: &mut Window,
    offset: usize,
) -> Result<Option<ForeignRecord>>
    requires part { HoldsPart file.now.source (F.disk file_system.now) window.old }
    requires inside { offset ≤ file.now.source.size }
    ensures part { HoldsPart file.now.source (F.disk file_system.now) window.new }
    ensures ok { IfOk result (λ found. IsTrue window.new.receipt.honest
        → FindsForeign file.now (bytes_of file.now.source (F.disk file_system.now)) offset found) }
    ensures err { IfErr result (λ error. IsTrue window.new.receipt.honest
        → CannotRead file.now.source offset (F.disk file_system.now) error) }
    ensures receipts { Collects F.tells_truth window.old.receipt.honest window.new.receipt.honest }
{
    let source = file.source;
    let at = find_record(alloc, file_system, file, window, offset)?;
    let left = source.size - at;
    if left < LOG_BATCH_HEADER_LEN {
        return Ok(None);
    }
    window.peek(file_system, source, at, LOG_BATCH_HEADER_LEN, 0)?;
    let Ok(header) = spelled_header(window.held(at, LOG_BATCH_HEADER_LEN)) else {
        return Ok(None);
    };
    if !is_foreign(header, left) {
        return Ok(None);
    }
    let (footer, len) = (header.footer as usize, header.len as usize);
    window.peek(file_system, source, at + footer, len - footer, 0)?;
    let context = LogFileContext::new(file.id, file.format.version);
    let bytes = window.held(at + footer, len - footer);
    if !has_checksum(bytes, context.get_signature()) {
        return Ok(None);
    }
    Ok(Some(ForeignRecord {
        offset: at,
        compression: header.compression,
    }))
}
