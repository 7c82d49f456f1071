//! Reads the footer of a record: its items, and their signed checksum.
ghost use Rattle.std.specs.Prelude.{◌≡◌, ◌+◌, ◌-◌, ◌<◌, ◌^◌, ◌==◌, if◌then◌else◌, min};
ghost use Rattle.raft_log_record_items.specs.Placed.{entries_len};
ghost use Rattle.raft_log_record_frames.specs.Record.{
  GivesItems,
  GivesSlice,
  TellsWhole,
  body_of,
  footer_of,
  placed_footer_of,
};

use crate::header::LOG_BATCH_CHECKSUM_LEN;
use raft_log_record_base::codec;
use raft_log_record_checksum::crc32;
use raft_log_record_items::items::{decode_items, decode_placed_items};
use raft_log_record_items::{Error, FileBlockHandle, LogItem, Result};
use std::alloc::Global;

/// The length of these items' entries in bytes, or 2^64 - 1 if they are longer.
fn entries_len(items: &[LogItem]) -> u64
    ensures { result ≡ min (entries_len items.now) (2 ^ 64 - 1) }
{
    let mut len: u64 = 0;
    for item in items {
        len = len.saturating_add(item.entries_len());
    }
    len
}

/// Whether entries of `len` bytes fill a block of this length.
fn fills(len: u64, block_len: usize) -> bool
    requires { len < 2 ^ 32 }
    ensures { result ≡ (if block_len == 0 then len == 0 else block_len == len + 4) }
{
    if block_len == 0 {
        len == 0
    } else {
        block_len as u64 == len + LOG_BATCH_CHECKSUM_LEN as u64
    }
}

/// Fails with `Corruption`, or with `Memory`, unless nothing follows the items and their entries fill a block of this
/// length. `len` is the entries' length, or 2^64 - 1 if they are longer.
#[tactic(auto, unfolding(crate::specs::Record::whole_of))]
fn check_whole(alloc: Global, rest: &[u8], len: u64, block_len: usize) -> Result<()>
    ensures { TellsWhole result block_len len rest.now }
{
    let left = rest.len();
    if left != 0 {
        return Err(Error::Corruption(format!(in alloc; "Bytes after the last log item: {left}")?));
    }
    if len > u32::MAX as u64 || !fills(len, block_len) {
        return Err(Error::Corruption(format!(in alloc;
            "Entry lengths do not add up to the entry block"
        )?));
    }
    Ok(())
}

/// The bytes of a footer before its checksum. Fails with `Corruption` if the checksum isn't theirs with this signature.
#[tactic(auto, unfolding(crate::specs::Record::body_of))]
fn open_footer(alloc: Global, bytes: &[u8], signature: Option<u32>) -> Result<&[u8]>
    ensures { GivesSlice result (body_of signature bytes.now) }
{
    let len = bytes.len();
    if len <= LOG_BATCH_CHECKSUM_LEN {
        return Err(Error::Corruption(format!(in alloc; "Log batch footer too short: {len}")?));
    }
    let (body, mut checksum) = bytes.split_at(len - LOG_BATCH_CHECKSUM_LEN);
    if codec::decode_u32_le(&mut checksum)? != crc32(body) ^ signature.unwrap_or(0) {
        return Err(Error::Corruption(format!(in alloc; "Log batch footer checksum mismatch")?));
    }
    Ok(body)
}

/// The items of a whole footer with this signature, whose entries fill a block of this length.
///
/// Fails with the first of these, or with `Memory`:
/// - `Corruption` for fewer than five bytes or a wrong checksum;
/// - the first fault of the items;
/// - `Corruption` for bytes after the last item, or for entries that don't fill the block.
#[tactic(auto, unfolding(crate::specs::Record::footer_of, crate::specs::Record::whole_items))]
pub fn decode_footer(
    alloc: Global,
    bytes: &[u8],
    block_len: usize,
    signature: Option<u32>,
) -> Result<Vec<LogItem>>
    ensures exact { GivesItems result (footer_of signature block_len bytes.now) }
{
    let mut rest = open_footer(alloc, bytes, signature)?;
    let items = decode_items(alloc, &mut rest)?;
    check_whole(alloc, rest, entries_len(items.as_slice()), block_len)?;
    Ok(items)
}

/// The items of a whole footer with this signature, whose entries are in the block at this place. Each entry gets its
/// offset in the block and the block's place, and each key its file. The items get their places as they are read. Fails
/// as `decode_footer` does.
#[tactic(auto, unfolding(crate::specs::Record::footer_of, crate::specs::Record::whole_items, crate::specs::Record::placed_footer_of))]
pub fn decode_placed_footer(
    alloc: Global,
    bytes: &[u8],
    block: FileBlockHandle,
    signature: Option<u32>,
) -> Result<Vec<LogItem>>
    ensures exact { GivesItems result (placed_footer_of signature block bytes.now) }
{
    let mut rest = open_footer(alloc, bytes, signature)?;
    let (items, len) = decode_placed_items(alloc, &mut rest, block)?;
    check_whole(alloc, rest, len, block.len)?;
    Ok(items)
}
