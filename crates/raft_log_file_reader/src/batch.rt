//! Reads one batch through a window: the padding before it, its header and its footer.
ghost use Rattle.std.specs.Prelude.{◌≡◌, ◌+◌, ◌-◌, ◌≤◌, ◌<◌, ◌^◌, ◌↔◌, length, take, drop, Ok, IsOk, IsTrue, IfOk, IfErr};
ghost use Rattle.raft_log_fs.specs.Receipts.{Collects};
ghost use Rattle.raft_log_record_frames.specs.Record.{header_at};
ghost use Rattle.raft_log_file_reader.specs.Source.{bytes_of, CannotRead};
ghost use Rattle.raft_log_file_reader.specs.Holding.{HoldsPart};
ghost use Rattle.raft_log_file_reader.specs.Batches.{IsBlockAt, padding_len, extent_at, batch_at, context_of};
ghost use Rattle.raft_log_file_reader.specs.Refused.{FailsAt};
ghost use Rattle.raft_log_file_reader.specs.Places.{FindsPlace};

use crate::open_file::OpenFile;
use crate::window::Window;
use raft_log_file_format::is_zero_padded;
use raft_log_fs::FileSystem;
use raft_log_record_base::{Error, FileBlockHandle, LogFileContext, Result};
use raft_log_record_batches::LogItemBatch;
use raft_log_record_frames::{LOG_BATCH_HEADER_LEN, decode_header};
use raft_log_record_items::CompressionType;
use std::alloc::Global;

/// How many bytes there are from an offset to the next multiple of an alignment; none without an alignment.
fn padding_len(alignment: usize, offset: usize) -> usize
    ensures { result ≡ padding_len alignment offset }
{
    if alignment == 0 {
        return 0;
    }
    (alignment - offset % alignment) % alignment
}

/// Whether the bytes begin with a header.
fn begins_header(alloc: Global, bytes: &[u8]) -> bool
    ensures { IsTrue result ↔ IsOk (header_at bytes.now) }
{
    let mut source: &[u8] = bytes;
    decode_header(alloc, &mut source).is_ok()
}

/// Where the record after an offset is: after zero padding up to the next multiple of the alignment, if no valid header
/// is at the offset, and otherwise at the offset.
pub(crate) fn find_record<F: FileSystem>(
    alloc: Global,
    file_system: &F,
    file: &OpenFile,
    window: &mut Window,
    offset: usize,
) -> Result<usize>
    requires part { HoldsPart file.now.source (F.disk file_system.now) window.old }
    requires inside { offset ≤ file.now.source.size }
    ensures part { HoldsPart file.now.source (F.disk file_system.now) window.new }
    ensures ok { IfOk result
        (FindsPlace window.new.receipt.honest file.now (F.disk file_system.now) offset) }
    ensures err { IfErr result (λ error. IsTrue window.new.receipt.honest
        → CannotRead file.now.source offset (F.disk file_system.now) error) }
    ensures receipts { Collects F.tells_truth window.old.receipt.honest window.new.receipt.honest }
{
    let left = file.source.size - offset;
    let padding = padding_len(file.format.alignment as usize, offset);
    if padding == 0 || left < padding || left < LOG_BATCH_HEADER_LEN {
        return Ok(offset);
    }
    window.peek(file_system, file.source, offset, LOG_BATCH_HEADER_LEN, 0)?;
    if begins_header(alloc, window.held(offset, LOG_BATCH_HEADER_LEN)) {
        return Ok(offset);
    }
    window.peek(file_system, file.source, offset, padding, 0)?;
    if is_zero_padded(window.held(offset, padding)) {
        return Ok(offset + padding);
    }
    Ok(offset)
}

/// Where the footer of the record at an offset begins, and how many bytes the record has, both counted from its start.
///
/// Fails as a read does, or with the first of these faults: too few bytes for a header, a broken header, a record that
/// ends past the file's end.
#[tactic(auto, unfolding(crate::specs::Batches::extent_at))]
fn read_extent<F: FileSystem>(
    alloc: Global,
    file_system: &F,
    file: &OpenFile,
    window: &mut Window,
    at: usize,
) -> Result<(usize, usize)>
    requires part { HoldsPart file.now.source (F.disk file_system.now) window.old }
    requires inside { at ≤ file.now.source.size }
    ensures part { HoldsPart file.now.source (F.disk file_system.now) window.new }
    ensures ok { IfOk result (λ extent. IsTrue window.new.receipt.honest
        → extent_at (drop at (bytes_of file.now.source (F.disk file_system.now))) ≡ Ok extent) }
    ensures inside { IfOk result (λ extent. at + extent.1 ≤ file.now.source.size) }
    ensures fits { IfOk result (λ extent. at + extent.1 < 2 ^ 64) }
    ensures order { IfOk result (λ extent. (16 ≤ extent.0) × (extent.0 ≤ extent.1)) }
    ensures err { IfErr result (λ e. IsTrue window.new.receipt.honest
        → FailsAt file.now.source (F.disk file_system.now) at e
        (extent_at (drop at (bytes_of file.now.source (F.disk file_system.now))))) }
    ensures receipts { Collects F.tells_truth window.old.receipt.honest window.new.receipt.honest }
{
    let left = file.source.size - at;
    if left < LOG_BATCH_HEADER_LEN {
        return Err(Error::Corruption(format!(in alloc; "Log batch header too short: {left}")?));
    }
    window.peek(file_system, file.source, at, LOG_BATCH_HEADER_LEN, 0)?;
    let mut header: &[u8] = window.held(at, LOG_BATCH_HEADER_LEN);
    let (footer, _, len) = decode_header(alloc, &mut header)?;
    if left < len {
        return Err(Error::Corruption(format!(in alloc;
            "Log batch past the end of the input: {len}"
        )?));
    }
    Ok((footer, len))
}

/// The batch of the record at an offset, with its locations, the record's length in bytes, and its entry block's
/// location. The block isn't checked.
///
/// Fails as a read does, or with the first of these faults: a broken header, end or footer; then the first fault of the
/// items.
pub(crate) fn read_batch<F: FileSystem>(
    alloc: Global,
    file_system: &F,
    file: &OpenFile,
    window: &mut Window,
    at: usize,
) -> Result<(usize, FileBlockHandle, LogItemBatch)>
    requires part { HoldsPart file.now.source (F.disk file_system.now) window.old }
    requires inside { at ≤ file.now.source.size }
    ensures part { HoldsPart file.now.source (F.disk file_system.now) window.new }
    ensures ok { IfOk result (λ found. IsTrue window.new.receipt.honest
        → batch_at (context_of file.now) at (bytes_of file.now.source (F.disk file_system.now))
        ≡ Ok (found.0, found.2.items)) }
    ensures block { IfOk result (λ found. IsTrue window.new.receipt.honest
        → IsBlockAt (context_of file.now) at (bytes_of file.now.source (F.disk file_system.now)) found.1) }
    ensures block_inside { IfOk result (λ found. found.1.offset + found.1.len ≤ file.now.source.size) }
    ensures inside { IfOk result (λ found. at + found.0 ≤ file.now.source.size) }
    ensures fits { IfOk result (λ found. at + found.0 < 2 ^ 64) }
    ensures weighs { IfOk result (λ found. length found.2.items < found.0) }
    ensures err { IfErr result (λ e. IsTrue window.new.receipt.honest
        → FailsAt file.now.source (F.disk file_system.now) at e
        (batch_at (context_of file.now) at (bytes_of file.now.source (F.disk file_system.now)))) }
    ensures receipts { Collects F.tells_truth window.old.receipt.honest window.new.receipt.honest }
{
    let source = file.source;
    let (footer, len) = read_extent(alloc, file_system, file, window, at)?;
    window.peek(
        file_system,
        source,
        at + footer,
        len - footer,
        LOG_BATCH_HEADER_LEN,
    )?;
    let context = LogFileContext::new(file.id, file.format.version);
    let block = FileBlockHandle {
        id: file.id,
        offset: (at + LOG_BATCH_HEADER_LEN) as u64,
        len: footer - LOG_BATCH_HEADER_LEN,
    };
    let bytes = window.held(at + footer, len - footer);
    let batch = LogItemBatch::decode(alloc, bytes, block, CompressionType::None, &context)?;
    Ok((len, block, batch))
}
